//! Number words, read and written.
ghost use Rattle.std.specs.Prelude.{◌≡◌, Some, None, IfOk, pos, option_map, option_and_then, if◌then◌else◌};
ghost use Rattle.std.specs.Fmt.{decimal, signed_decimal};
ghost use Rattle.std.specs.Str.{all_ascii_digits};
ghost use Rattle.tau_value.specs.Numbers.{number_after, count_in, negated, in_i64, integer_in, capped};

use itoa::Buffer;
use std::alloc::{AllocError, Global};
use tau_sexpr::Word;

/// The number of a count: `0`, or digits of which the first isn't `0` (docs/formats.md, "Numbers and names").
/// `None` where the word is no count. A number greater than `u64::MAX` is answered as `u64::MAX`.
pub fn count_of(word: &Word) -> Option<u64>
    ensures { result ≡ option_map capped (count_in word.now) }
{
    count_of_bytes(word.bytes())
}

/// The integer of a number word: a count, or `-` before a count other than 0 (docs/formats.md, "Numbers and names").
/// `None` where the word is no number word, or its integer isn't in the range of `i64`.
pub fn integer_of(word: &Word) -> Option<i64>
    ensures { result ≡ integer_in word.now }
{
    match word.bytes() {
        [b'-', digits @ ..] => negated_of(count_of_bytes(digits)?),
        bytes => i64_of(count_of_bytes(bytes)?),
    }
}

fn count_of_bytes(bytes: &[u8]) -> Option<u64>
    ensures { result ≡ option_map capped (count_in bytes.now) }
{
    match bytes {
        [] => None,
        [b'0', rest @ ..] => { if rest.is_empty() { Some(0) } else { None } }
        _ => number_of_digits(bytes),
    }
}

/// The number that digits mean; `None` where a byte is no digit.
fn number_of_digits(bytes: &[u8]) -> Option<u64>
    ensures { result ≡ (if all_ascii_digits bytes.now
        then Some (capped (number_after 0 bytes.now))
        else None) }
{
    let mut number = 0u64;
    for byte in bytes {
        if !byte.is_ascii_digit() {
            return None;
        }
        number = number
            .saturating_mul(10)
            .saturating_add(u64::from(*byte - b'0'));
    }
    Some(number)
}

fn i64_of(count: u64) -> Option<i64>
    ensures { result ≡ in_i64 (pos count) }
{
    i64::try_from(count).ok()
}

fn negated_of(count: u64) -> Option<i64>
    ensures { result ≡ option_and_then in_i64 (negated count) }
{
    let below = count.checked_sub(1)?;
    let number = i64::try_from(below).ok()?;
    Some(-1 - number)
}

/// The count word of a number. The error is want of memory.
pub fn word_of_count(alloc: Global, count: u64) -> Result<Word, AllocError>
    ensures word { IfOk result (λ w. w ≡ decimal count) }
    ensures read_back { IfOk result (λ w. count_in w ≡ Some count) }
{
    let mut buffer = Buffer::new();
    Word::of(alloc, buffer.format(count).as_bytes())
}

/// The number word of an integer. The error is want of memory.
pub fn word_of_integer(alloc: Global, integer: i64) -> Result<Word, AllocError>
    ensures word { IfOk result (λ w. w ≡ signed_decimal integer) }
    ensures read_back { IfOk result (λ w. integer_in w ≡ Some integer) }
{
    let mut buffer = Buffer::new();
    Word::of(alloc, buffer.format(integer).as_bytes())
}
