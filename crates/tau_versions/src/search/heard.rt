//! The versions that were heard of.
ghost use Rattle.std.specs.Prelude.{◌≡◌, ℕ};
ghost use Rattle.tau_versions.specs.Logs.Told.{Told};
ghost use Rattle.tau_points.specs.declared.point.Point.{Point};
ghost use Rattle.tau_versions.specs.Search.Searching.{fate_of, takes_of};

use crate::logs::Log;
use tau_history::Fate;
use tau_points::Point;

/// What was heard, as a search asks for it: of each transactor the number of the latest version that was heard of, 0
/// where none was.
pub trait HeardVersions {
    ghost numbers: { Self → ℕ → ℕ };

    /// The number of the latest version of a transactor that was heard of.
    fn number(&self, who: u32) -> u32
        ensures { result ≡ numbers self.now who };
}

/// The fate of a point by the version heard of its transactor; Ahead where there is no such transactor.
pub fn fate_of<V: HeardVersions>(logs: &[Log], heard: &V, point: &Point) -> Fate
    ensures { result ≡ fate_of logs.now (V.numbers heard.now) point.now }
{
    match logs.get(point.who as usize) {
        Some(log) => {
            let number = heard.number(point.who);
            log.fate(number as usize, point.interval, point.incarnation)
        }
        None => Fate::Ahead,
    }
}

/// What the point of the version heard of a transactor has taken.
pub fn takes_of<'a, V: HeardVersions>(logs: &'a [Log], heard: &V, who: u32) -> &'a [Point]
    ensures { result.now ≡ takes_of logs.now (V.numbers heard.now) who }
{
    match logs.get(who as usize) {
        Some(log) => {
            let number = heard.number(who);
            log.taken(number as usize)
        }
        None => &[],
    }
}
