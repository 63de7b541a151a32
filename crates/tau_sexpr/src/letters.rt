//! The bytes of a word: a few in the value itself, more in an allocation.
ghost use Rattle.std.specs.Prelude.{◌≡◌, ◌↔◌, ◌<◌, ◌≤◌, [], ◌∷◌, ◌++◌, length, IsTrue, IfOk, OnOk, OnErr};
ghost use Rattle.tau_sexpr.specs.Inner.Letters.{bytes_of};

use std::alloc::{AllocError, Global};
use std::marker::Model;

/// How many bytes stand in the value itself: as many as leave `Letters` at 24 bytes, the size of a vector.
const ROOM: usize = 22;

/// At most 22 bytes, which take no block of memory. Contracts see them as a list.
#[derive(Debug, Drop)]
pub struct ShortLetters {
    len: u8,
    bytes: [u8; ROOM],
}

impl Model for ShortLetters {
    ghost use Rattle.std.specs.Prelude.{ℕ, ◌≤◌, List, take};
    ghost use Rattle.std.specs.Coded.{coded_ℕ, coded_list};

    ghost Value = { List ℕ };

    ghost coded = { coded_list coded_ℕ };

    ghost view = { λ s. take s.len s.bytes };

    ghost invariant = { λ s. s.len ≤ 22 };
}

impl ShortLetters {
    fn new() -> ShortLetters
        ensures { result ≡ [] }
    {
        ShortLetters {
            len: 0,
            bytes: [0; ROOM],
        }
    }

    fn of(bytes: &[u8]) -> ShortLetters
        requires { length bytes.now ≤ 22 }
        ensures { result ≡ bytes.now }
    {
        let mut held = [0; ROOM];
        held[..bytes.len()].copy_from_slice(bytes);
        ShortLetters {
            len: bytes.len() as u8,
            bytes: held,
        }
    }

    fn has_room(&self) -> bool
        ensures { IsTrue result ↔ (length self.now < 22) }
    {
        (self.len as usize) < ROOM
    }

    fn push(&mut self, byte: u8)
        requires { length self.old < 22 }
        ensures { self.new ≡ self.old ++ byte ∷ [] }
    {
        self.bytes[self.len as usize] = byte;
        self.len += 1;
    }

    fn bytes(&self) -> &[u8]
        ensures { result.now ≡ self.now }
    {
        &self.bytes[..self.len as usize]
    }
}

/// Bytes of any number. Those that were once more than 22 stay in an allocation.
#[derive(Debug, Drop)]
pub enum Letters {
    Short(ShortLetters),
    Long(Box<Vec<u8>>),
}

impl Letters {
    pub fn new() -> Letters
        ensures { bytes_of result ≡ [] }
    {
        Letters::Short(ShortLetters::new())
    }

    pub fn of(alloc: Global, bytes: &[u8]) -> Result<Letters, AllocError>
        ensures { IfOk result (λ l. bytes_of l ≡ bytes.now) }
    {
        if bytes.len() <= ROOM {
            return Ok(Letters::Short(ShortLetters::of(bytes)));
        }
        let long = Vec::from_slice(alloc, bytes)?;
        Ok(Letters::Long(Box::new(alloc, long)?))
    }

    /// Adds a byte at the end. Without memory the bytes stay as they were.
    pub fn push(&mut self, alloc: Global, byte: u8) -> Result<(), AllocError>
        ensures ok { OnOk result (bytes_of self.new ≡ bytes_of self.old ++ byte ∷ []) }
        ensures err { OnErr result (bytes_of self.new ≡ bytes_of self.old) }
    {
        match self {
            Letters::Long(bytes) => {
                bytes.push(byte)?;
                Ok(())
            }
            Letters::Short(bytes) => {
                if bytes.has_room() {
                    bytes.push(byte);
                    return Ok(());
                }
                let long = with_more(alloc, bytes.bytes(), byte)?;
                *self = Letters::Long(long);
                Ok(())
            }
        }
    }

    pub fn bytes(&self) -> &[u8]
        ensures { result.now ≡ bytes_of self.now }
    {
        match self {
            Letters::Short(bytes) => bytes.bytes(),
            Letters::Long(bytes) => bytes,
        }
    }
}

fn with_more(alloc: Global, bytes: &[u8], byte: u8) -> Result<Box<Vec<u8>>, AllocError>
    ensures { IfOk result (λ b. b.value.items ≡ bytes.now ++ byte ∷ []) }
{
    let mut long = Vec::from_slice(alloc, bytes)?;
    long.push(byte)?;
    Ok(Box::new(alloc, long)?)
}
