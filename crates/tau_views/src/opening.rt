//! Views before the first step.
ghost use Rattle.std.specs.Prelude.{◌≡◌, IfOk};
ghost use Rattle.tau_history.specs.Timeline as timeline;
ghost use Rattle.tau_view.specs.Rules.{nothing, noted};
ghost use Rattle.tau_view.specs.Trim.{trim};
ghost use Rattle.tau_views.specs.Kept.{held_of, letters_of};
ghost use Rattle.tau_views.specs.Inner.Opened.{AreStarts, ArePosts};

use std::alloc::{AllocError, Global};
use tau_history::History;
use tau_view::View;

/// The views of so many starts. More than a u32 counts have no room.
pub(crate) fn start_views<V: View + Drop>(
    alloc: Global,
    starts: usize,
) -> Result<Vec<V>, AllocError>
    ensures { IfOk result (λ v. AreStarts V.drops_edge V.drops_root (held_of V.held v.items) starts) }
{
    let Ok(count) = u32::try_from(starts) else {
        return Err(AllocError);
    };
    let mut views = Vec::with_capacity(alloc, starts)?;
    for who in 0..count {
        views.push(start_view(alloc, who)?)?;
    }
    Ok(views)
}

/// The view of a start: it has heard of itself alone.
fn start_view<V: View + Drop>(alloc: Global, who: u32) -> Result<V, AllocError>
    ensures { IfOk result (λ v. V.held v ≡ trim V.drops_edge V.drops_root (noted who timeline.opening nothing)) }
{
    let history = History::opening(alloc)?;
    let mut view = V::empty(alloc);
    view.note(who, &history)?;
    Ok(view)
}

/// The views of so many posts. They have heard of nothing.
pub(crate) fn post_views<V: View + Drop>(
    alloc: Global,
    posts: usize,
) -> Result<Vec<Option<V>>, AllocError>
    ensures { IfOk result (λ v. ArePosts V.drops_edge V.drops_root (letters_of V.held v.items) posts) }
{
    let mut views = Vec::with_capacity(alloc, posts)?;
    for _post in 0..posts {
        views.push(Some(V::empty(alloc)))?;
    }
    Ok(views)
}
