//! The classes of bytes.
ghost use Rattle.std.specs.Prelude.{◌≡◌, ◌↔◌, IsTrue, All};
ghost use Rattle.tau_sexpr.specs.Bytes.{IsWordByte, IsTextByte, is_word_sign as word_sign};
ghost use Rattle.tau_sexpr.specs.Kinds.{kind_of, is_plain as plain_test, meaning as meaning_of};

/// Whether a word may hold this byte: a letter, a digit or one of `- _ + * / % < > = ? ! .`
/// (docs/formats.md, "Texts and forms").
#[tactic(auto, unfolding(crate::specs::Bytes::is_word_byte, crate::specs::Bytes::is_letter_or_digit, crate::specs::Bytes::is_word_sign))]
pub fn is_word_byte(byte: u8) -> bool
    ensures { IsTrue result ↔ IsWordByte byte }
{
    byte.is_ascii_alphanumeric() || is_word_sign(byte)
}

#[tactic(auto, unfolding(crate::specs::Bytes::is_word_sign))]
fn is_word_sign(byte: u8) -> bool
    ensures { IsTrue result ↔ IsTrue (word_sign byte) }
{
    matches!(
        byte,
        b'-' | b'_' | b'+' | b'*' | b'/' | b'%' | b'<' | b'>' | b'=' | b'?' | b'!' | b'.'
    )
}

/// Whether a text may hold this byte: 0x20 to 0x7E, or 0x0A (docs/formats.md, "Texts and forms").
#[tactic(auto, unfolding(crate::specs::Bytes::is_text_byte))]
pub fn is_text_byte(byte: u8) -> bool
    ensures { IsTrue result ↔ IsTextByte byte }
{
    matches!(byte, 0x20..=0x7E | 0x0A)
}

/// Whether a word may hold all of these bytes.
pub fn are_word_bytes(bytes: &[u8]) -> bool
    ensures { IsTrue result ↔ All IsWordByte bytes.now }
{
    bytes.iter().all(|byte| is_word_byte(*byte))
}

/// Whether a text may hold all of these bytes.
pub fn are_text_bytes(bytes: &[u8]) -> bool
    ensures { IsTrue result ↔ All IsTextByte bytes.now }
{
    bytes.iter().all(|byte| is_text_byte(*byte))
}

/// What a byte is outside of texts in quotes and comments.
#[derive(Clone, Copy, Debug, PartialEq, Eq)]
pub enum ByteKind {
    Blank,
    Semicolon,
    Opening,
    Closing,
    Quote,
    OfWord,
    Other,
}

/// Whether a byte in quotes stands for itself.
#[tactic(auto, unfolding(crate::specs::Kinds::is_plain))]
pub fn is_plain(byte: u8) -> bool
    ensures { IsTrue result ↔ IsTrue (plain_test byte) }
{
    matches!(byte, 0x20..=0x7E) && byte != b'"' && byte != b'\\'
}

/// What a backslash and this byte mean in quotes.
#[tactic(auto, unfolding(crate::specs::Kinds::meaning))]
pub fn meaning(byte: u8) -> Option<u8>
    ensures { result ≡ meaning_of byte }
{
    match byte {
        b'"' => Some(b'"'),
        b'\\' => Some(b'\\'),
        b'n' => Some(b'\n'),
        _ => None,
    }
}

/// The kind of a byte.
#[tactic(auto, unfolding(crate::specs::Kinds::kind_of, crate::specs::Bytes::is_blank))]
pub fn kind(byte: u8) -> ByteKind
    ensures { result ≡ kind_of byte }
{
    match byte {
        b' ' | b'\t' | b'\n' | b'\r' => ByteKind::Blank,
        b';' => ByteKind::Semicolon,
        b'(' => ByteKind::Opening,
        b')' => ByteKind::Closing,
        b'"' => ByteKind::Quote,
        _ if is_word_byte(byte) => ByteKind::OfWord,
        _ => ByteKind::Other,
    }
}
