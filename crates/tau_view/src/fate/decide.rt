ghost use Rattle.std.specs.Prelude.{IfOk};
ghost use Rattle.tau_view.specs.Past.{Settled};
ghost use Rattle.tau_view.specs.Fate.Decisions.{IsVerdict, IsFreedom};

use crate::View;
use crate::fate::freedom::Freedom;
use crate::fate::least::{
    least_fallen, least_fallen_beyond, least_fallen_found, least_not_firm, least_not_firm_settled,
    past_of_own, single,
};
use crate::fate::verdict::Verdict;
use std::alloc::{AllocError, Global};
use tau_points::Point;

/// The verdict on a message (`docs/rules.md`, "Verdict"), by the facts of `merged`, the receiver's own point `me`, and
/// the roots of the message's view `sent`. It is exact on whatever views are given; a point whose transactor has no
/// history in `merged` is Ahead. The named point is the least Fallen one of the known past that decides.
pub fn judge<V: View>(alloc: Global, merged: &V, me: Point, sent: &V) -> Result<Verdict, AllocError>
    ensures { IfOk result (IsVerdict (V.held merged.now) me (V.held sent.now).root) }
{
    let own = single(alloc, me)?;
    if let Some(point) = least_fallen(merged, &own)? {
        return Ok(Verdict::Fall { point });
    }
    match least_fallen(merged, sent.roots())? {
        Some(point) => Ok(Verdict::Drop { point }),
        None => Ok(Verdict::Take),
    }
}

/// Whether the transactor with the own point `me` is free by its view (`docs/rules.md`, "Free"). It is exact on
/// whatever view is given. The named point is the least one of the known past that isn't firm.
pub fn free<V: View>(alloc: Global, own: &V, me: Point) -> Result<Freedom, AllocError>
    ensures { IfOk result (IsFreedom (V.held own.now) me) }
{
    let points = single(alloc, me)?;
    match least_not_firm(own, &points)? {
        Some(point) => Ok(Freedom::Bound { point }),
        None => Ok(Freedom::Free),
    }
}

/// The verdict that `judge` gives, where each point of the known past of a Closed point is firm. Its cost doesn't grow
/// with the intervals and edges that lie behind Closed points.
pub fn judge_settled<V: View>(
    alloc: Global,
    merged: &V,
    me: Point,
    sent: &V,
) -> Result<Verdict, AllocError>
    requires { Settled (V.held merged.now) }
    ensures { IfOk result (IsVerdict (V.held merged.now) me (V.held sent.now).root) }
{
    let past = past_of_own(alloc, merged, me)?;
    if let Some(point) = least_fallen_found(merged, me, &past) {
        return Ok(Verdict::Fall { point });
    }
    match least_fallen_beyond(merged, me, &past, sent.roots())? {
        Some(point) => Ok(Verdict::Drop { point }),
        None => Ok(Verdict::Take),
    }
}

/// What `free` answers, where each point of the known past of a Closed point is firm. Its cost doesn't grow with the
/// intervals and edges that lie behind Closed points.
pub fn free_settled<V: View>(alloc: Global, own: &V, me: Point) -> Result<Freedom, AllocError>
    requires { Settled (V.held own.now) }
    ensures { IfOk result (IsFreedom (V.held own.now) me) }
{
    let points = single(alloc, me)?;
    match least_not_firm_settled(own, &points)? {
        Some(point) => Ok(Freedom::Bound { point }),
        None => Ok(Freedom::Free),
    }
}
