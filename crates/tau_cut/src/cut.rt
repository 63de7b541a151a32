//! Marks of the Checkpoints of a trace.
ghost use Rattle.std.specs.Prelude.{◌≡◌, IfOk};

use std::alloc::AllocError;
use tau_explain::chains::Chain;
use tau_lists::{Item, ItemList};

/// Whether a Checkpoint could be kept if everything but some Checkpoints were lost (docs/definitions.md, "Consistent").
#[derive(Drop)]
pub enum Marked {
    /// The greatest consistent set holds the Checkpoint at this place.
    In { place: u32 },
    /// No consistent set holds the Checkpoint at this place. The chain is the first of the shortest from its point to a point that
    /// can't be kept.
    Out { place: u32, chain: Chain },
}

impl Marked {
    /// An equal mark. The error is want of memory.
    pub fn copy(&self) -> Result<Marked, AllocError>
        ensures { IfOk result (λ m. m ≡ self.now) }
    {
        match self {
            Marked::In { place } => Ok(Marked::In { place: *place }),
            Marked::Out { place, chain } => Ok(Marked::Out {
                place: *place,
                chain: chain.copy()?,
            }),
        }
    }
}

impl Item for Marked {
    fn copied(&self) -> Result<Marked, AllocError> {
        self.copy()
    }
}

/// A cut: a mark for each Checkpoint of a trace, by place.
pub type Cut = ItemList<Marked>;
