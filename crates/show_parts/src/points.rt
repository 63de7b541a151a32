//! Points and pairs of points as words: the three numbers of a point with dots between them, and `>` between two points.
use crate::calls::{Call, number_of};
use std::alloc::{AllocError, Global};
use tau_points::Point;

/// The point that a word spells; a number that is missing is 0.
pub(crate) fn point_of(word: &str) -> Point {
    let mut numbers = word.split(".").map(number_of);
    Point {
        who: numbers.next().unwrap_or(0),
        interval: numbers.next().unwrap_or(0),
        incarnation: numbers.next().unwrap_or(0),
    }
}

/// The pair that a word spells.
pub(crate) fn pair_of(word: &str) -> (Point, Point) {
    let (from, to) = word.split_once(">").unwrap_or((word, ""));
    (point_of(from), point_of(to))
}

/// The points that the words of a call from a place on spell.
pub(crate) fn points_of(
    alloc: Global,
    call: Call<'_>,
    place: usize,
) -> Result<Vec<Point>, AllocError> {
    let mut points = Vec::new(alloc);
    for word in call.line().split_whitespace().skip(1).skip(place) {
        points.push(point_of(word))?;
    }
    Ok(points)
}

/// The pairs that the words after the verb spell.
pub(crate) fn pairs_of(alloc: Global, call: Call<'_>) -> Result<Vec<(Point, Point)>, AllocError> {
    let mut pairs = Vec::new(alloc);
    for word in call.line().split_whitespace().skip(1) {
        pairs.push(pair_of(word))?;
    }
    Ok(pairs)
}

/// Adds a point after a blank.
pub(crate) fn add_point(text: &mut String, point: Point) -> Result<(), AllocError> {
    write!(
        text,
        " {}.{}.{}",
        point.who, point.interval, point.incarnation
    )
}

/// Adds a pair after a blank.
pub(crate) fn add_pair(text: &mut String, pair: (Point, Point)) -> Result<(), AllocError> {
    let (from, to) = pair;
    add_point(text, from)?;
    write!(text, ">{}.{}.{}", to.who, to.interval, to.incarnation)
}

/// Adds the line of a call with points.
pub(crate) fn add_points(
    text: &mut String,
    call: Call<'_>,
    points: &[Point],
) -> Result<(), AllocError> {
    write!(text, "{}:", call.line())?;
    for point in points {
        add_point(text, *point)?;
    }
    text.push('\n')
}
