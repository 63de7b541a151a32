// Closed numbers in chunks of eight. A chunk stands on the chunks before it and is shared, never changed.
ghost use Rattle.std.specs.Prelude.{◌≡◌, ℕ, ◌+◌, ◌-◌, ◌*◌, ◌<◌, ◌≤◌, ◌^◌, ◌%◌, ◌↔◌, ◌++◌, length, take, slice_get, Some, IsTrue, IfOk};
ghost use Rattle.tau_history.specs.Closed.{IsFront};
ghost use Rattle.tau_history.specs.Chunks.{held};

use std::alloc::{AllocError, Global};
use std::marker::Model;
use std::sync::Arc;

/// How many numbers a chunk has.
pub(crate) const SIZE: u32 = 8;

/// Eight numbers and the chunks before them. `jump` leads to one of these, so that a number is found in
/// logarithmic time.
#[cycle(chunk)]
pub(crate) struct Chunk {
    count: u32,
    before: Option<Arc<Chunk>>,
    jump: Option<Arc<Chunk>>,
    block: [u32; 8],
}

impl Model for Chunk {
    ghost use Rattle.std.specs.Prelude.{List, ℕ, ◌++◌, length};
    ghost use Rattle.std.specs.Coded.{coded_list, coded_ℕ};

    ghost Value = { List ℕ };

    ghost coded = { coded_list coded_ℕ };

    ghost use Rattle.std.specs.Prelude.{◌≡◌, ◌+◌, ◌<◌, ◌^◌, ◌%◌};
    ghost use Rattle.tau_history.specs.Chunks.{held};
    ghost use Rattle.tau_history.specs.Closed.{IsFront};

    ghost view = { λ c. held c.before ++ c.block };

    ghost invariant = { λ c. (length c.block ≡ 8) × (c.count ≡ length (held c.before) + 8) × (c.count < 2 ^ 32) × (c.count % 8 ≡ 0) × IsFront (held c.jump) (held c.before) };

    ghost size = { length };

    ghost use Rattle.std.proofs.Common.{arith, length-append};
    ghost use Rattle.tau_history.specs.Falls.{weight_le};

    ghost size_decreases = { λ a h. omega (arith, length-append (held a.before) a.block, weight_le a.before, weight_le a.jump) };
}

impl Drop for Chunk {
    /// A loop, so that a long chain needs no deep stack. The jump goes first: its chunks are held from `before` too.
    #[cycle(dropping)]
    fn drop(self) {
        let Chunk {
            count: _,
            before,
            jump,
            block: _,
        } = self;
        drop(jump);
        let mut next = before;
        while let Some(shared) = next {
            match Arc::into_inner(shared) {
                Some(chunk) => next = chunk.into_before(),
                None => return,
            }
        }
    }
}

impl Chunk {
    #[cycle(dropping)]
    fn into_before(self) -> Option<Arc<Chunk>>
        ensures { length (held result) < length self }
    {
        let Chunk {
            count: _,
            before,
            jump,
            block: _,
        } = self;
        drop(jump);
        before
    }
}

/// How many numbers a chain of chunks has.
pub(crate) fn count_of(chunks: &Option<Arc<Chunk>>) -> u32
    ensures count { result ≡ length (held chunks.now) }
    ensures whole { result % 8 ≡ 0 }
{
    match chunks {
        Some(shared) => {
            let top: &Chunk = shared;
            top.count
        }
        None => 0,
    }
}

/// Another owner of the same chunks.
pub(crate) fn share(chunks: &Option<Arc<Chunk>>) -> Result<Option<Arc<Chunk>>, AllocError>
    ensures { IfOk result (λ other. held other ≡ held chunks.now) }
{
    match chunks {
        Some(shared) => Ok(Some(Arc::try_clone(shared)?)),
        None => Ok(None),
    }
}

/// The jump of a chunk on these: past two jumps of equal length, or else to the top.
fn jump_over(before: &Option<Arc<Chunk>>) -> Result<Option<Arc<Chunk>>, AllocError>
    ensures { IfOk result (λ jump. IsFront (held jump) (held before.now)) }
{
    let Some(shared) = before else {
        return Ok(None);
    };
    let top: &Chunk = shared;
    if let Some(jump) = &top.jump {
        let near: &Chunk = jump;
        if top.count - near.count == near.count - count_of(&near.jump) {
            return share(&near.jump);
        }
    }
    share(before)
}

/// A new chunk on top of these.
pub(crate) fn extended(
    alloc: Global,
    before: &Option<Arc<Chunk>>,
    block: [u32; 8],
) -> Result<Option<Arc<Chunk>>, AllocError>
    requires { length (held before.now) + 8 < 2 ^ 32 }
    ensures { IfOk result (λ chunks. held chunks ≡ held before.now ++ block) }
{
    let count = count_of(before) + SIZE;
    let jump = jump_over(before)?;
    let before = share(before)?;
    match Arc::new(
        alloc,
        Chunk {
            count,
            before,
            jump,
            block,
        },
    ) {
        Ok(top) => Ok(Some(top)),
        Err(_) => Err(AllocError),
    }
}

/// The number at `k`, in logarithmic time.
pub(crate) fn number_in(chunks: &Option<Arc<Chunk>>, k: u32) -> u32
    requires { k < length (held chunks.now) }
    ensures { slice_get (held chunks.now) k ≡ Some result }
{
    let mut rest = chunks;
    while let Some(shared) = rest {
        let top: &Chunk = shared;
        let below = top.count - SIZE;
        if below <= k {
            return top.block[(k - below) as usize];
        }
        rest = if k < count_of(&top.jump) {
            &top.jump
        } else {
            &top.before
        };
    }
    unreachable!()
}

/// The chunks that hold the first `count` numbers.
pub(crate) fn front_of(chunks: &Option<Arc<Chunk>>, count: u32) -> &Option<Arc<Chunk>>
    requires within { count ≤ length (held chunks.now) }
    requires whole { count % 8 ≡ 0 }
    ensures { held result.now ≡ take count (held chunks.now) }
{
    let mut rest = chunks;
    while let Some(shared) = rest {
        let top: &Chunk = shared;
        if top.count == count {
            return rest;
        }
        rest = if count <= count_of(&top.jump) {
            &top.jump
        } else {
            &top.before
        };
    }
    rest
}

fn alike(left: &[u32; 8], right: &[u32; 8]) -> bool
    ensures { IsTrue result ↔ (left.now ≡ right.now) }
{
    left == right
}

/// Whether two chains of equally many chunks hold the same numbers.
pub(crate) fn same(left: &Option<Arc<Chunk>>, right: &Option<Arc<Chunk>>) -> bool
    requires { length (held left.now) ≡ length (held right.now) }
    ensures { IsTrue result ↔ (held left.now ≡ held right.now) }
{
    let mut one = left;
    let mut other = right;
    while let (Some(a), Some(b)) = (one, other) {
        let a: &Chunk = a;
        let b: &Chunk = b;
        if !alike(&a.block, &b.block) {
            return false;
        }
        one = &a.before;
        other = &b.before;
    }
    true
}
