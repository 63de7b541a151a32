//! Laws of the views of what was heard, each the contract of a function that does nothing.
ghost use Rattle.tau_views.specs.Laws.{ViewsStepByStep, StartsOpenAlone, PostsHaveHeardNothing, CopiesHaveTheirView, ViewsHaveTheOwnHistory, ViewsLackTheUnborn, ViewsAreComparable, MergedViewsAreLater, ViewsAreLocal};
ghost use Rattle.tau_views.specs.DecisionLaws.{FallsAlike, DropsAlike, FreeAlike, ViewsAreSettled, MessageViewsAreSettled, MergedViewsAreSettled, VerdictsAgree, FreedomAgrees};
ghost use Rattle.tau_views.specs.FittingLaws.{FittingViewsAreSettled, FittingMessageViewsAreSettled, FittingMergedViewsAreSettled};
ghost use Rattle.tau_views.specs.NamedPoints.{VerdictsNameFallen, FreedomNamesNotFirm};

use tau_view::View;

/// What a transactor has heard after one step more, as the rules make it of what it had heard (docs/rules.md, "Steps").
pub fn views_step_by_step()
    ensures { ViewsStepByStep }
{}

/// At the opening a start has heard of itself alone.
pub fn starts_open_alone()
    ensures { StartsOpenAlone }
{}

/// A post has heard nothing, and carries nothing.
pub fn posts_have_heard_nothing()
    ensures { PostsHaveHeardNothing }
{}

/// A copy has heard and carries what the message that it repeats does.
pub fn copies_have_their_view()
    ensures { CopiesHaveTheirView }
{}

/// The view of a transactor has its own history as it is, and none of a transactor that doesn't exist yet.
pub fn views_have_the_own_history()
    ensures own { ViewsHaveTheOwnHistory }
    ensures unborn { ViewsLackTheUnborn }
{}

/// A transactor's view and a message's agree on each history as far as both have heard; merged, they have the later one.
pub fn views_are_comparable()
    ensures comparable { ViewsAreComparable }
    ensures merged { MergedViewsAreLater }
{}

/// What was heard at a place reads the opening and the steps before it alone.
pub fn views_are_local()
    ensures { ViewsAreLocal }
{}

/// On merged views a Fallen point is known exactly where one is by what was heard.
pub fn falls_and_drops_agree()
    ensures falls { FallsAlike }
    ensures drops { DropsAlike }
{}

/// Where the rules are kept, a transactor is free on its view exactly where it is by what it has heard.
pub fn freedom_agrees()
    ensures { FreeAlike }
{}

/// Where the rules are kept, each point of the known past of a Closed point is firm, on a transactor's view of what was heard,
/// on a message's, and on the two merged.
pub fn views_are_settled()
    ensures own { ViewsAreSettled }
    ensures message { MessageViewsAreSettled }
    ensures merged { MergedViewsAreSettled }
{}

/// Whatever the program, in a trace in which every step fits the views of what was heard are settled: each point of the known past
/// of a Closed point is firm, on a transactor's view, on a message's, and on the two merged (docs/definitions.md, "Settled").
pub fn fitting_views_are_settled()
    ensures own { FittingViewsAreSettled }
    ensures message { FittingMessageViewsAreSettled }
    ensures merged { FittingMergedViewsAreSettled }
{}

/// Whatever a type of view drops, the decisions on its views are those by what was heard.
pub fn decisions_agree<V: View>()
    ensures verdict { VerdictsAgree V.drops_edge V.drops_root }
    ensures freedom { FreedomAgrees V.drops_edge V.drops_root }
{}

/// Whatever a type of view drops, the point that a verdict on its views names is fallen by what was heard, and in the past that
/// decides; and the point that freedom names isn't firm by what was heard.
pub fn named_points_are_known<V: View>()
    ensures verdict { VerdictsNameFallen V.drops_edge V.drops_root }
    ensures freedom { FreedomNamesNotFirm V.drops_edge V.drops_root }
{}
