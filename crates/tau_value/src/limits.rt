//! The limits of programs and traces (docs/limits.md).

/// How many nodes a program may have.
pub const NODE_LIMIT: u32 = 64;

/// How many behaviours a program may have.
pub const BEHAVIOUR_LIMIT: usize = 256;

/// How many starts a program may have.
pub const START_LIMIT: usize = 1_024;

/// How many posts a program may have.
pub const POST_LIMIT: usize = 4_096;

/// How many script entries a program may have.
pub const ENTRY_LIMIT: usize = 4_096;

/// How many steps a trace may have.
pub const STEP_LIMIT: u32 = 1_000_000;
