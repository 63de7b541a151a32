//! Points that are closed by what was heard.
ghost use Rattle.std.specs.Prelude.{◌≡◌, filter, IfOk};
ghost use Rattle.std.specs.List.{count_by};
ghost use Rattle.tau_versions.specs.Roots.Closing.{is_unclosed};

use crate::logs::Log;
use crate::search::{HeardVersions, fate_of};
use std::alloc::{AllocError, Global};
use tau_history::Fate;
use tau_points::Point;

/// Whether a point isn't closed by the version heard of its transactor.
pub(crate) fn is_unclosed<V: HeardVersions>(logs: &[Log], heard: &V, point: &Point) -> bool
    ensures { result ≡ is_unclosed logs.now (V.numbers heard.now) point.now }
{
    !matches!(fate_of(logs, heard, point), Fate::Closed)
}

/// How many of the points aren't closed.
pub(crate) fn count_unclosed<V: HeardVersions>(logs: &[Log], heard: &V, points: &[Point]) -> usize
    ensures { result ≡ count_by (is_unclosed logs.now (V.numbers heard.now)) points.now }
{
    points
        .iter()
        .filter(|point| is_unclosed(logs, heard, point))
        .count()
}

/// Those of the points that aren't closed. The error is want of memory.
pub(crate) fn unclosed<V: HeardVersions>(
    alloc: Global,
    logs: &[Log],
    heard: &V,
    points: &[Point],
) -> Result<Vec<Point>, AllocError>
    ensures { IfOk result (λ v. v.items ≡ filter (is_unclosed logs.now (V.numbers heard.now)) points.now) }
{
    let mut left = Vec::from_slice(alloc, points)?;
    left.retain(|point| is_unclosed(logs, heard, point));
    Ok(left)
}
