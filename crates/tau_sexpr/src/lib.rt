//! Texts of words, texts in quotes and lists: their forms, read and printed (docs/formats.md, "Texts and forms").
#![tactic(auto)]

mod bytes;
mod faults;
mod laws;
mod letters;
mod printer;
mod reader;
mod texts;
mod trees;
mod words;

pub use bytes::{are_text_bytes, are_word_bytes, is_text_byte, is_word_byte};
pub use faults::FormError;
pub use laws::{forms_or_first_fault, reading_goes_on, spelling_is_unique};
pub use printer::{print_forms, put_form_line};
pub use reader::{read_forms, read_some};
pub use texts::Text;
pub use trees::{Form, Forms};
pub use words::Word;
