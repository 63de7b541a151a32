//! What is kept of a transactor.
ghost use Rattle.std.specs.Prelude.{◌≡◌, [], false};

use std::alloc::Global;
use tau_versions::numbers::Numbers;
use tau_versions::roots::Roots;

/// What a transactor has heard, and what its open turn takes along.
#[derive(Drop)]
pub struct Own {
    /// For each other transactor the number of its latest version heard of. What stands for the transactor itself isn't
    /// read.
    pub numbers: Numbers,
    /// What the message of the open turn carried.
    pub roots: Roots,
    /// Whether the turn has touched the own point.
    pub touched: bool,
    /// Whether the own point has taken all that the turn takes along.
    pub depended: bool,
}

impl Own {
    /// What is kept of a transactor that has heard of nothing, between turns.
    pub fn unheard(alloc: Global) -> Own
        ensures numbers { result.numbers.numbers ≡ [] }
        ensures roots { result.roots ≡ [] }
        ensures touched { result.touched ≡ false }
        ensures depended { result.depended ≡ false }
    {
        Own {
            numbers: Numbers::new(alloc),
            roots: Roots::none(),
            touched: false,
            depended: false,
        }
    }
}
