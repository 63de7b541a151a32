//! The views of a system that keeps views.
ghost use Rattle.std.specs.Prelude.{◌≡◌, ◌↔◌, ◌<◌, IsSome, IfSome};
ghost use Rattle.tau_trace.specs.Run.{len};
ghost use Rattle.tau_trace.specs.Numbering.{born, InFlight};
ghost use Rattle.tau_trace.specs.Histories.{history};
ghost use Rattle.tau_views.specs.Views.{IsViewOf, IsMessageView};
ghost use Rattle.tau_views.specs.Kept.{IsTrimmed};

use crate::views::Views;
use tau_history::History;
use tau_rules::System;
use tau_view::View;

/// The view of a transactor: what it has heard, without what this type of view drops; `None` exactly where it doesn't
/// exist (docs/definitions.md, "View of what was heard").
pub fn view_of<'a, V: View + Drop>(system: &'a System<'_, Views<V>>, who: u32) -> Option<&'a V>
    ensures exists { IsSome result ↔ (who < born system.now.run (len system.now.run)) }
    ensures view { IfSome result (λ v. IsTrimmed V.drops_edge V.drops_root (IsViewOf system.now.run who (len system.now.run)) (V.held v.now)) }
{
    system.known().view_of(who)
}

/// The view of a message: what it has heard, without what this type of view drops; `None` exactly where it isn't in
/// flight (docs/definitions.md, "View of what was heard").
pub fn message_view<'a, V: View + Drop>(
    system: &'a System<'_, Views<V>>,
    message: u32,
) -> Option<&'a V>
    ensures in_flight { IsSome result ↔ InFlight system.now.run message (len system.now.run) }
    ensures view { IfSome result (λ v. IsTrimmed V.drops_edge V.drops_root (IsMessageView system.now.run message) (V.held v.now)) }
{
    system.known().message_view(message)
}

/// The history of a transactor; `None` exactly where it doesn't exist (docs/rules.md, "Histories").
pub fn history_of<'a, V: View + Drop>(
    system: &'a System<'_, Views<V>>,
    who: u32,
) -> Option<&'a History>
    ensures exists { IsSome result ↔ (who < born system.now.run (len system.now.run)) }
    ensures history { IfSome result (λ h. h.now.history ≡ history system.now.run who (len system.now.run)) }
{
    system.known().view_of(who)?.history_of(who)
}
