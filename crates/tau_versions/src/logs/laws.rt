//! Laws of versions, each the contract of a function that does nothing.
ghost use Rattle.tau_versions.specs.Logs.Known.{FatesAtBoundsTellTheKnown};
ghost use Rattle.tau_versions.specs.Logs.Laws.{LatestIsUnique, LatestOfTheGreaterPlace, LatestStaysLatest, LogsStay, LogsAreLocal};
ghost use Rattle.tau_versions.specs.Logs.Takes.{TakenStays, ReachedPointsHaveTakenNothing, SetsTakeTheRoots, LaterSetsTakeNothingNew, NewbornsTakeWhatIsCarried, TakesGoOn};

use tau_past::AnyPlaces;

/// At a place at most one version is the latest.
pub fn latest_is_unique()
    ensures { LatestIsUnique }
{}

/// The latest version at the greater of two places has the greater of both numbers.
pub fn latest_of_the_greater_place()
    ensures { LatestOfTheGreaterPlace }
{}

/// A version that begins later changes nothing of what was the latest one before.
pub fn latest_stays_latest()
    ensures { LatestStaysLatest }
{}

/// Where its transactor's history doesn't move, a log stays right.
pub fn logs_stay()
    ensures { LogsStay }
{}

/// A log is right for each run with these steps.
pub fn logs_are_local()
    ensures { LogsAreLocal }
{}

/// A point that stays and takes nothing has taken what it had.
pub fn taken_stays()
    ensures { TakenStays }
{}

/// A point that is reached by a Checkpoint or a falling step has taken nothing yet.
pub fn reached_points_have_taken_nothing()
    ensures { ReachedPointsHaveTakenNothing }
{}

/// By a Set the point takes each other root.
pub fn sets_take_the_roots()
    ensures { SetsTakeTheRoots }
{}

/// By a further Set of a turn the point takes nothing that it hasn't taken.
pub fn later_sets_take_nothing_new()
    ensures { LaterSetsTakeNothingNew }
{}

/// With a version that tells what its point has taken, a log goes on.
pub fn takes_go_on()
    ensures { TakesGoOn }
{}

/// By the bound of what was heard, a version tells what is known of its transactor's points.
pub fn fates_at_bounds_tell_the_known<H: AnyPlaces>()
    ensures { FatesAtBoundsTellTheKnown H.holds }
{}

/// The first point of a transactor that a New makes takes what its creator's turn carries.
pub fn newborns_take_what_is_carried()
    ensures { NewbornsTakeWhatIsCarried }
{}
