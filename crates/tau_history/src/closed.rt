// The numbers of the closed intervals of a history.
ghost use Rattle.std.specs.Prelude.{◌≡◌, ◌+◌, ◌<◌, ◌≤◌, ◌^◌, ◌↔◌, ◌++◌, ◌∷◌, [], length, take, slice_get, Some, IsTrue, IfOk, OnOk, OnErr};
ghost use Rattle.tau_history.specs.Closed.{ClosedList, IsFront};

use crate::chunk::{Chunk, SIZE, extended, front_of, number_in, same, share};
use std::alloc::{AllocError, Global};
use std::marker::Model;
use std::sync::Arc;

/// The numbers in shared chunks, the last few in place. A copy costs the same at every length.
#[derive(Drop)]
pub(crate) struct ClosedNumbers {
    chunks: Option<Arc<Chunk>>,
    // How many numbers stand in the chunks.
    chunked: u32,
    tail: [u32; 8],
    tail_len: u32,
    alloc: Global,
}

impl Model for ClosedNumbers {
    ghost use Rattle.std.specs.Prelude.{◌≡◌, ◌+◌, ◌-◌, ◌<◌, ◌≤◌, ◌^◌, ◌%◌, ◌++◌, length, take};
    ghost use Rattle.tau_history.specs.Closed.{ClosedList};

    ghost Value = { ClosedList };

    ghost use Rattle.tau_history.specs.Chunks.{held};

    ghost view = { λ c. record { numbers = held c.chunks ++ take c.tail_len c.tail; spare = 8 - c.tail_len } };

    ghost invariant = { λ c. (length c.tail ≡ 8) × (c.tail_len ≤ 8) × (c.chunked ≡ length (held c.chunks)) × (c.chunked % 8 ≡ 0) × (c.chunked + c.tail_len < 2 ^ 32) };
}

impl ClosedNumbers {
    /// No number.
    pub(crate) fn new(alloc: Global) -> ClosedNumbers
        ensures numbers { result.numbers ≡ [] }
        ensures spare { result.spare ≡ 8 }
    {
        ClosedNumbers {
            chunks: None,
            chunked: 0,
            tail: [0; 8],
            tail_len: 0,
            alloc,
        }
    }

    pub(crate) fn len(&self) -> u32
        ensures { result ≡ length self.now.numbers }
    {
        self.chunked + self.tail_len
    }

    /// The number at `k`, in logarithmic time.
    pub(crate) fn at(&self, k: u32) -> u32
        requires { k < length self.now.numbers }
        ensures { slice_get self.now.numbers k ≡ Some result }
    {
        if k < self.chunked {
            number_in(&self.chunks, k)
        } else {
            self.tail[(k - self.chunked) as usize]
        }
    }

    /// Makes room for one more number.
    pub(crate) fn reserve(&mut self) -> Result<(), AllocError>
        ensures numbers { self.new.numbers ≡ self.old.numbers }
        ensures ok { OnOk result (1 ≤ self.new.spare) }
        ensures spare { self.old.spare ≤ self.new.spare }
    {
        if self.tail_len < SIZE {
            return Ok(());
        }
        self.chunks = extended(self.alloc, &self.chunks, self.tail)?;
        self.chunked += SIZE;
        self.tail_len = 0;
        Ok(())
    }

    /// Appends a number, for which there is room.
    pub(crate) fn push_spare(&mut self, number: u32)
        requires spare { 1 ≤ self.old.spare }
        requires fits { length self.old.numbers + 1 < 2 ^ 32 }
        ensures numbers { self.new.numbers ≡ self.old.numbers ++ number ∷ [] }
        ensures spare { self.new.spare + 1 ≡ self.old.spare }
    {
        self.tail[self.tail_len as usize] = number;
        self.tail_len += 1;
    }

    pub(crate) fn copy(&self) -> Result<ClosedNumbers, AllocError>
        ensures { IfOk result (λ c. c ≡ self.now) }
    {
        let chunks = share(&self.chunks)?;
        Ok(ClosedNumbers {
            chunks,
            chunked: self.chunked,
            tail: self.tail,
            tail_len: self.tail_len,
            alloc: self.alloc,
        })
    }

    /// Whether the later numbers begin with these, in time linear in these.
    pub(crate) fn continues_in(&self, later: &ClosedNumbers) -> bool
        requires { length self.now.numbers ≤ length later.now.numbers }
        ensures { IsTrue result ↔ IsFront self.now.numbers later.now.numbers }
    {
        let chunked = self.chunked.min(later.chunked);
        if !same(
            front_of(&self.chunks, chunked),
            front_of(&later.chunks, chunked),
        ) {
            return false;
        }
        for k in chunked..self.len() {
            if self.at(k) != later.at(k) {
                return false;
            }
        }
        true
    }
}
