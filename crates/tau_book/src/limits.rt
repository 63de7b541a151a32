//! The limit of a worker (docs/limits.md).

/// For how many jobs a worker may have room.
pub const JOB_LIMIT: u32 = 16;
