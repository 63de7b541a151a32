//! What is kept of a message in flight.
ghost use Rattle.std.specs.Prelude.{◌≡◌, [], None, Some, IfOk};
ghost use Rattle.tau_heard.specs.Facts.{IsSameSender};

use std::alloc::AllocError;
use std::sync::Arc;
use tau_versions::roots::Roots;

/// What a message has heard, and what it carries.
#[derive(Drop)]
pub struct Letter {
    /// What its sender had heard; a post has none.
    pub sender: Option<Sender>,
    /// What it carries.
    pub roots: Roots,
}

/// What the sender of a message had heard at its origin, a Send or an Echo.
#[derive(Drop)]
pub struct Sender {
    /// The sender.
    pub who: u32,
    /// The number of its version there.
    pub version: u32,
    /// For each other transactor the number of its latest version heard of. What stands for the sender isn't read.
    pub numbers: Arc<Vec<u32>>,
}

impl Letter {
    /// What is kept of a post.
    pub fn post() -> Letter
        ensures sender { result.sender ≡ None }
        ensures roots { result.roots ≡ [] }
    {
        Letter {
            sender: None,
            roots: Roots::none(),
        }
    }

    /// What is kept of a copy of the message; lists are shared. The error is want of memory.
    pub fn share(&self) -> Result<Letter, AllocError>
        ensures sender { IfOk result (λ l. IsSameSender self.now.sender l.sender) }
        ensures roots { IfOk result (λ l. l.roots ≡ self.now.roots) }
    {
        let roots = self.roots.share()?;
        let sender = share_sender(&self.sender)?;
        Ok(Letter { sender, roots })
    }
}

/// The same sender, if there is one; its numbers are shared. The error is want of memory.
fn share_sender(sender: &Option<Sender>) -> Result<Option<Sender>, AllocError>
    ensures { IfOk result (λ s. IsSameSender sender.now s) }
{
    match sender {
        Some(sender) => {
            let numbers = Arc::try_clone(&sender.numbers)?;
            Ok(Some(Sender {
                who: sender.who,
                version: sender.version,
                numbers,
            }))
        }
        None => Ok(None),
    }
}
