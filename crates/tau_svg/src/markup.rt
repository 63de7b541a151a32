//! Markup: elements with attributes, texts and titles, one a line (docs/formats.md, "Pictures").

mod elements;
pub mod laws;
mod texts;

pub use elements::{
    begin, close, constant, end, line_break, name, number, plain, put_number, put_word, quote,
    said, text, title, title_close,
};
pub use texts::{cut, cut_inside, escape};
