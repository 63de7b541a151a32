//! What a trace begins with.
ghost use Rattle.std.specs.Prelude.{◌≡◌, map, IfOk};
ghost use Rattle.tau_trace.specs.Stored.{posted};

use crate::message::Message;
use std::alloc::{AllocError, Global};

/// The messages of the posts, by their receivers.
pub(crate) fn posts(alloc: Global, targets: &[u32]) -> Result<Vec<Message>, AllocError>
    ensures { IfOk result (λ v. v.items ≡ map posted targets.now) }
{
    targets
        .iter()
        .map(|target| Message::new(Some(*target), None))
        .collect(alloc)
}
