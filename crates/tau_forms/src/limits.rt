//! How many lists of each kind a program may have.
ghost use Rattle.std.specs.Prelude.{◌≡◌, ◌++◌, ◌∷◌, [], List};
ghost use Rattle.tau_sexpr.specs.Tree.{Tree};
ghost use Rattle.tau_forms.specs.Readings.{AreCounts};
ghost use Rattle.tau_forms.specs.Tops.{sort_of as sort_in_tree, limit_of};

use crate::keywords::Sort;
use tau_value::{BEHAVIOUR_LIMIT, ENTRY_LIMIT, POST_LIMIT, START_LIMIT};

/// How many lists of each kind stand at the top up to a place, and how many forms of no kind. A greater number is told as the last of usize.
#[derive(Clone, Copy)]
pub(crate) struct Counts {
    behaviours: usize,
    starts: usize,
    posts: usize,
    entries: usize,
    others: usize,
}

impl Counts {
    /// Before the first form.
    pub(crate) fn none() -> Counts
        ensures { AreCounts [] result }
    {
        Counts {
            behaviours: 0,
            starts: 0,
            posts: 0,
            entries: 0,
            others: 0,
        }
    }

    /// Counts the next form, by its kind.
    pub(crate) fn note(&mut self, sort: Sort)
        ensures { (before : List Tree) (t : Tree) → AreCounts before self.old → sort ≡ sort_in_tree t
            → AreCounts (before ++ t ∷ []) self.new }
    {
        match sort {
            Sort::Behaviour => self.behaviours = self.behaviours.saturating_add(1),
            Sort::Start => self.starts = self.starts.saturating_add(1),
            Sort::Post => self.posts = self.posts.saturating_add(1),
            Sort::At => self.entries = self.entries.saturating_add(1),
            Sort::Other => self.others = self.others.saturating_add(1),
            Sort::Nodes | Sort::Version => {}
        }
    }

    /// How many forms of no kind there are.
    pub(crate) fn others(self) -> usize
        ensures { result ≡ self.others }
    {
        self.others
    }

    /// The least number of a kind of which there are too many lists: 1 of behaviours, 2 of starts, 3 of posts, 4 of script
    /// entries (docs/limits.md).
    pub(crate) fn limit(self) -> Option<u8>
        ensures { (ts : List Tree) → AreCounts ts self → result ≡ limit_of ts }
    {
        if self.behaviours > BEHAVIOUR_LIMIT {
            return Some(1);
        }
        if self.starts > START_LIMIT {
            return Some(2);
        }
        if self.posts > POST_LIMIT {
            return Some(3);
        }
        if self.entries > ENTRY_LIMIT {
            return Some(4);
        }
        None
    }
}
