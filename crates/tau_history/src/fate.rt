/// What a history of a transactor says of one of its points (`docs/rules.md`, "Fates").
#[derive(Clone, Copy, Debug, PartialEq, Eq)]
pub enum Fate {
    /// The history has not come to the point.
    Ahead,
    /// The history stands at the point and is volatile.
    Open,
    /// The history stands at the point and is stable.
    Stable,
    /// The interval was closed at the point.
    Closed,
    /// The history fell from the point.
    Fallen,
}
