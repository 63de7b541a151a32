//! What a step makes of one view, as a new view (docs/rules.md, "Views").
ghost use Rattle.std.specs.Prelude.{◌≡◌, IfOk};
ghost use Rattle.tau_history.specs.Timeline as timeline;
ghost use Rattle.tau_view.specs.Held.{AllComparable};
ghost use Rattle.tau_view.specs.Rules.{noted, touched, depended, merged, with_roots, with_no_roots};
ghost use Rattle.tau_view.specs.Laws.{MayNote};
ghost use Rattle.tau_views.specs.Laws.{with_newborn};
ghost use Rattle.tau_views.specs.Inner.Trims.{IsAfter, IsAfterBoth};

use std::alloc::{AllocError, Global};
use tau_history::History;
use tau_points::Point;
use tau_view::View;

/// The point is touched.
pub(crate) fn after_touch<V: View + Drop>(view: &V, point: Point) -> Result<V, AllocError>
    ensures { IfOk result (λ v. IsAfter V.drops_edge V.drops_root (touched point) (V.held view.now) (V.held v)) }
{
    let mut next = view.try_copy()?;
    next.touch(point)?;
    Ok(next)
}

/// The point depends on the roots, and is touched.
pub(crate) fn after_set<V: View + Drop>(view: &V, point: Point) -> Result<V, AllocError>
    ensures { IfOk result (λ v. IsAfter V.drops_edge V.drops_root (λ x. touched point (depended point x)) (V.held view.now) (V.held v)) }
{
    let mut next = view.try_copy()?;
    next.depend(point)?;
    next.touch(point)?;
    Ok(next)
}

/// The transactor's history becomes this one, and the point is touched.
pub(crate) fn after_stabilize<V: View + Drop>(
    view: &V,
    who: u32,
    history: &History,
    point: Point,
) -> Result<V, AllocError>
    requires { MayNote who history.now.history (V.held view.now).history }
    ensures { IfOk result (λ v. IsAfter V.drops_edge V.drops_root (λ x. touched point (noted who history.now.history x)) (V.held view.now) (V.held v)) }
{
    let mut next = view.try_copy()?;
    next.note(who, history)?;
    next.touch(point)?;
    Ok(next)
}

/// The transactor's history becomes this one, and the roots are taken away.
pub(crate) fn after_leaving<V: View + Drop>(
    view: &V,
    who: u32,
    history: &History,
) -> Result<V, AllocError>
    requires { MayNote who history.now.history (V.held view.now).history }
    ensures { IfOk result (λ v. IsAfter V.drops_edge V.drops_root (λ x. with_no_roots (noted who history.now.history x)) (V.held view.now) (V.held v)) }
{
    let mut next = view.try_copy()?;
    next.note(who, history)?;
    next.clear_roots();
    Ok(next)
}

/// The roots are taken away.
pub(crate) fn after_turn<V: View + Drop>(view: &V) -> Result<V, AllocError>
    ensures { IfOk result (λ v. IsAfter V.drops_edge V.drops_root with_no_roots (V.held view.now) (V.held v)) }
{
    let mut next = view.try_copy()?;
    next.clear_roots();
    Ok(next)
}

/// A message's facts are merged in.
pub(crate) fn after_merge<V: View + Drop>(view: &V, letter: &V) -> Result<V, AllocError>
    requires { AllComparable (V.held view.now).history (V.held letter.now).history }
    ensures { IfOk result (λ v. IsAfterBoth V.drops_edge V.drops_root merged (V.held view.now) (V.held letter.now) (V.held v)) }
{
    let mut next = view.try_copy()?;
    next.merge_facts(letter)?;
    Ok(next)
}

/// A message's facts are merged in, and the roots become those of the message.
pub(crate) fn after_take<V: View + Drop>(view: &V, letter: &V) -> Result<V, AllocError>
    requires { AllComparable (V.held view.now).history (V.held letter.now).history }
    ensures { IfOk result (λ v. IsAfterBoth V.drops_edge V.drops_root (λ x y. with_roots y.root (merged x y)) (V.held view.now) (V.held letter.now) (V.held v)) }
{
    let mut next = view.try_copy()?;
    next.merge_facts(letter)?;
    next.take_roots(letter)?;
    Ok(next)
}

/// The first point of a new transactor depends on the roots, and the view has the transactor's history.
pub(crate) fn after_new<V: View + Drop>(alloc: Global, view: &V, made: u32) -> Result<V, AllocError>
    requires { MayNote made timeline.newborn (V.held view.now).history }
    ensures { IfOk result (λ v. IsAfter V.drops_edge V.drops_root (with_newborn made) (V.held view.now) (V.held v)) }
{
    let history = History::newborn(alloc)?;
    let mut next = view.try_copy()?;
    next.depend(Point {
        who: made,
        interval: 0,
        incarnation: 0,
    })?;
    next.note(made, &history)?;
    Ok(next)
}
