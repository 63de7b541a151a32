ghost use Rattle.tau_view.specs.Held.{is_closed};
ghost use Rattle.tau_compact.specs.Pruning.{drops_between};

use tau_history::Fate;
use tau_view::Dropping;

/// What a pruned view drops.
pub(crate) struct Pruning;

impl Dropping for Pruning {
    ghost edge = { drops_between };

    ghost root = { is_closed };

    fn drops_edge(from: Fate, to: Fate) -> bool {
        from == Fate::Closed || from == Fate::Fallen || to == Fate::Closed
    }

    fn drops_root(fate: Fate) -> bool {
        fate == Fate::Closed
    }
}
