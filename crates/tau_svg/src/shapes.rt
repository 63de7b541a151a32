//! Measures, shapes and constant lines of pictures (docs/formats.md, "Pictures").

mod begin;
mod grid;
mod legend;
mod paths;
mod shapes;
mod style;
mod symbols;
mod window;

pub use begin::{put_begin, put_paper, put_title};
pub use grid::{Grid, grid_of};
pub use legend::put_legend;
pub use paths::{beside, put, put_curve, put_pair};
pub use shapes::{rect, rect_of, rounded, symbol_at, text_at};
pub use style::put_style;
pub use symbols::put_symbols;
pub use window::{Window, window_of};
