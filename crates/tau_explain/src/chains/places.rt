//! Lists of places and of points.
use tau_lists::ItemList;
use tau_points::Point;

/// A list of places.
pub type Places = ItemList<u32>;

/// A list of points.
pub type Points = ItemList<Point>;
