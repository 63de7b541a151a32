//! Texts.
ghost use Rattle.std.specs.Prelude.{◌≡◌, ◌↔◌, [], ◌∷◌, ◌++◌, length, slice_get, IsTrue, IfOk, IfErr, OnOk, OnErr, All, option_copied};
ghost use Rattle.std.specs.Option.{option_map_or};
ghost use Rattle.tau_sexpr.specs.Bytes.{IsTextByte};

use std::alloc::{AllocError, Global};
use std::marker::Model;
use std::sync::Arc;

/// A text: bytes 0x20 to 0x7E and 0x0A (docs/formats.md, "Texts and forms"). Contracts see it as the list of its bytes.
/// Copies share the bytes, so `copy` and `len` take the same time for every length.
#[derive(Debug, Drop)]
pub struct Text {
    bytes: Option<Arc<Vec<u8>>>,
    alloc: Global,
}

impl Model for Text {
    ghost use Rattle.std.specs.Prelude.{ℕ, List, [], All};
    ghost use Rattle.std.specs.Option.{option_map_or};
    ghost use Rattle.std.specs.Coded.{coded_ℕ, coded_list};
    ghost use Rattle.tau_sexpr.specs.Bytes.{IsTextByte};

    ghost Value = { List ℕ };

    ghost coded = { coded_list coded_ℕ };

    ghost view = { λ t. option_map_or (λ a. a.value.items) t.bytes [] };

    ghost invariant = { λ t. All IsTextByte (option_map_or (λ a. a.value.items) t.bytes []) };
}

impl Text {
    /// The empty text. It takes no memory.
    pub fn new(alloc: Global) -> Text
        ensures { result ≡ [] }
    {
        Text { bytes: None, alloc }
    }

    /// The text of these bytes. The error is want of memory.
    pub fn of(alloc: Global, bytes: &[u8]) -> Result<Text, AllocError>
        requires { All IsTextByte bytes.now }
        ensures { IfOk result (λ t. t ≡ bytes.now) }
    {
        Text::from_vec(alloc, Vec::from_slice(alloc, bytes)?)
    }

    /// The text of these bytes, which are not copied. The error is want of memory.
    pub fn from_vec(alloc: Global, bytes: Vec<u8>) -> Result<Text, AllocError>
        requires { All IsTextByte bytes.items }
        ensures { IfOk result (λ t. t ≡ bytes.items) }
    {
        if bytes.is_empty() {
            return Ok(Text { bytes: None, alloc });
        }
        Ok(Text {
            bytes: Some(Arc::new(alloc, bytes)?),
            alloc,
        })
    }

    /// Adds a byte at the end. Without memory the byte comes back, and the text stays as it was.
    /// It copies the bytes where another text shares them.
    pub fn push(&mut self, byte: u8) -> Result<(), (u8, AllocError)>
        requires { IsTextByte byte }
        ensures ok { OnOk result (self.new ≡ self.old ++ byte ∷ []) }
        ensures err { IfErr result (λ e. (e.0 ≡ byte) × (self.new ≡ self.old)) }
    {
        match put(&mut self.bytes, self.alloc, byte) {
            Ok(()) => Ok(()),
            Err(failed) => Err((byte, failed)),
        }
    }

    /// How many bytes the text has.
    pub fn len(&self) -> usize
        ensures { result ≡ length self.now }
    {
        self.bytes().len()
    }

    /// Whether the text has no bytes.
    pub fn is_empty(&self) -> bool
        ensures { IsTrue result ↔ (self.now ≡ []) }
    {
        self.bytes().is_empty()
    }

    /// The byte at `k`, counted from 0; `None` where there is none.
    pub fn item(&self, k: usize) -> Option<&u8>
        ensures { option_copied result ≡ slice_get self.now k }
    {
        self.bytes().get(k)
    }

    /// The bytes of the text, each of which a text may hold.
    pub fn bytes(&self) -> &[u8]
        ensures value { result.now ≡ self.now }
        ensures text { All IsTextByte result.now }
    {
        match &self.bytes {
            Some(bytes) => bytes,
            None => &[],
        }
    }

    /// An equal text, which shares the bytes. The error is want of memory.
    pub fn copy(&self) -> Result<Text, AllocError>
        ensures { IfOk result (λ t. t ≡ self.now) }
    {
        let bytes = match &self.bytes {
            Some(bytes) => Some(Arc::try_clone(bytes)?),
            None => None,
        };
        Ok(Text {
            bytes,
            alloc: self.alloc,
        })
    }

    /// Whether two texts have the same bytes.
    pub fn same(&self, other: &Text) -> bool
        ensures { IsTrue result ↔ (self.now ≡ other.now) }
    {
        self.bytes() == other.bytes()
    }
}

/// Adds a byte to bytes that others may share.
fn put(bytes: &mut Option<Arc<Vec<u8>>>, alloc: Global, byte: u8) -> Result<(), AllocError>
    ensures ok { OnOk result (option_map_or (λ a. a.value.items) bytes.new [] ≡ option_map_or (λ a. a.value.items) bytes.old [] ++ byte ∷ []) }
    ensures err { OnErr result (option_map_or (λ a. a.value.items) bytes.new [] ≡ option_map_or (λ a. a.value.items) bytes.old []) }
{
    match bytes {
        Some(shared) => put_shared(shared, alloc, byte),
        None => {
            let own = with_more(alloc, &[], byte)?;
            *bytes = Some(own);
            Ok(())
        }
    }
}

fn put_shared(shared: &mut Arc<Vec<u8>>, alloc: Global, byte: u8) -> Result<(), AllocError>
    ensures ok { OnOk result (shared.new.value.items ≡ shared.old.value.items ++ byte ∷ []) }
    ensures err { OnErr result (shared.new.value.items ≡ shared.old.value.items) }
{
    if let Some(own) = Arc::get_mut(shared) {
        own.push(byte)?;
        return Ok(());
    }
    let own = with_more(alloc, shared, byte)?;
    *shared = own;
    Ok(())
}

fn with_more(alloc: Global, bytes: &[u8], byte: u8) -> Result<Arc<Vec<u8>>, AllocError>
    ensures { IfOk result (λ a. a.value.items ≡ bytes.now ++ byte ∷ []) }
{
    let mut own = Vec::from_slice(alloc, bytes)?;
    own.push(byte)?;
    Ok(Arc::new(alloc, own)?)
}
