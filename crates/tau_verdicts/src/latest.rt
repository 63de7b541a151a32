//! The last versions of all transactors, as a search asks for them.
ghost use Rattle.std.specs.Prelude.{◌≡◌, ◌-◌, ◌^◌, min};
ghost use Rattle.tau_versions.specs.Search.Searching.{fate_of, takes_of};
ghost use Rattle.tau_heard.specs.Bounds.{last_number};
ghost use Rattle.tau_verdicts.specs.Latest.{latest};

use tau_history::Fate;
use tau_points::Point;
use tau_versions::logs::Log;
use tau_versions::search::{HeardVersions, fate_of, takes_of};

/// The last versions of all transactors.
#[derive(Clone, Copy)]
pub(crate) struct Latest<'a> {
    pub logs: &'a [Log],
}

impl<'a> HeardVersions for Latest<'a> {
    ghost use Rattle.tau_verdicts.specs.Latest.{latest};

    ghost numbers = { λ h. latest h.logs.now };

    fn number(&self, who: u32) -> u32 {
        small(last_number(self.logs, who))
    }
}

/// The fate of a point by the last version of its transactor; Ahead where there is no such transactor.
pub(crate) fn fate_now(logs: &[Log], point: Point) -> Fate
    ensures { result ≡ fate_of logs.now (latest logs.now) point }
{
    let latest = Latest { logs };
    fate_of(logs, &latest, &point)
}

/// What the present point of a transactor has taken.
pub(crate) fn taken_now(logs: &[Log], who: u32) -> &[Point]
    ensures { result.now ≡ takes_of logs.now (latest logs.now) who }
{
    let latest = Latest { logs };
    takes_of(logs, &latest, who)
}

/// The number of the last version of a transactor, 0 where it doesn't exist.
fn last_number(logs: &[Log], who: u32) -> usize
    ensures { result ≡ last_number logs.now who }
{
    match logs.get(who as usize) {
        Some(log) => log.len().saturating_sub(1),
        None => 0,
    }
}

/// A number that is cut to 32 bits.
fn small(number: usize) -> u32
    ensures { result ≡ min number (2 ^ 32 - 1) }
{
    match u32::try_from(number) {
        Ok(number) => number,
        Err(_) => u32::MAX,
    }
}
