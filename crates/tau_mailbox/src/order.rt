// All letters by ascending message, in blocks, so that one leaves by moving those of one block.
ghost use Rattle.std.specs.Prelude.{◌≡◌, ◌<◌, ◌≤◌, ◌+◌, ◌^◌, [], ◌∷◌, ◌++◌, length, take, drop, find, filter, slice_get, slice_index_or, vec_len, IfOk, OnOk, IfNone, IfSome};
ghost use Rattle.tau_mailbox.specs.Letters.{is_message, is_other, is_at, is_to, IsAscending, AllBelow};
ghost use Rattle.std.specs.Vec.{vec_capacity};
ghost use Rattle.tau_mailbox.specs.Letters.{WithRoom};
ghost use Rattle.tau_mailbox.specs.Order.{all_of, AllFilled, IsBlockOf};

use crate::letter::Letter;
use crate::letters::Letters;
use std::alloc::{AllocError, Global};
use std::marker::Model;
use std::mem;

/// How many letters a block has room for at least.
const BLOCK: usize = 512;

/// All letters by ascending message: those of the blocks, and then those of the tail, into which new ones go.
#[derive(Drop)]
pub(crate) struct Order {
    blocks: Vec<Letters>,
    tail: Letters,
    len: usize,
    alloc: Global,
}

impl Model for Order {
    ghost use Rattle.std.specs.Prelude.{◌++◌};
    ghost use Rattle.tau_mailbox.specs.Letters.{WithRoom};
    ghost use Rattle.tau_mailbox.specs.Order.{all_of, IsOrder};

    ghost Value = { WithRoom };

    ghost view = { λ o. record { letters = all_of o.blocks.items ++ o.tail.letters; room = o.tail.room } };

    ghost invariant = { λ o. IsOrder o.blocks.items o.tail.letters o.len };
}

impl Order {
    pub(crate) fn new(alloc: Global) -> Self
        ensures { result.letters ≡ [] }
    {
        Order {
            blocks: Vec::new(alloc),
            tail: Letters::new(alloc),
            len: 0,
            alloc,
        }
    }

    pub(crate) fn len(&self) -> usize
        ensures { result ≡ length self.now.letters }
    {
        self.len
    }

    pub(crate) fn at(&self, k: usize) -> Option<Letter>
        ensures { result ≡ slice_get self.now.letters k }
    {
        let mut left = k;
        for block in &self.blocks {
            let len = block.len();
            if left < len {
                return block.at(left);
            }
            left -= len;
        }
        self.tail.at(left)
    }

    /// The letters at a node.
    pub(crate) fn at_node(&self, node: u32) -> Result<Vec<Letter>, AllocError>
        ensures { IfOk result (λ v. v.items ≡ filter (is_at node) self.now.letters) }
    {
        let mut found = Vec::new(self.alloc);
        for block in &self.blocks {
            block.put_at_node(node, &mut found)?;
        }
        self.tail.put_at_node(node, &mut found)?;
        Ok(found)
    }

    /// Makes room for one more letter.
    pub(crate) fn reserve(&mut self) -> Result<(), AllocError>
        ensures letters { self.new.letters ≡ self.old.letters }
        ensures ok { OnOk result (1 ≤ self.new.room) }
        ensures room { self.old.room ≤ self.new.room }
    {
        if self.tail.room() > 0 {
            return Ok(());
        }
        if self.tail.len() < BLOCK {
            return self.tail.reserve();
        }
        self.blocks.reserve(1)?;
        let tail = Letters::with_room(self.alloc, BLOCK)?;
        let full = mem::replace(&mut self.tail, tail);
        put_block(&mut self.blocks, full);
        Ok(())
    }

    /// Puts a letter at the end, in the room that there is.
    pub(crate) fn push_spare(&mut self, letter: Letter)
        requires room { 1 ≤ self.old.room }
        requires last { AllBelow letter.message self.old.letters }
        ensures letters { self.new.letters ≡ self.old.letters ++ letter ∷ [] }
        ensures room { self.new.room + 1 ≡ self.old.room }
        ensures len { length self.new.letters < 2 ^ 64 }
    {
        // Messages ascend, so there are no more letters than a message can count.
        let _message = letter.message;
        self.tail.push_spare(letter);
        self.len += 1;
    }

    /// Takes the letter of a message out.
    pub(crate) fn take_out(&mut self, message: u32) -> Option<Letter>
        ensures found { result ≡ find (is_message message) self.old.letters }
        ensures rest { self.new.letters ≡ filter (is_other message) self.old.letters }
        ensures none { IfNone result (self.new ≡ self.old) }
        ensures room { self.old.room ≤ self.new.room }
    {
        let place = block_of(&self.blocks, message);
        let found = take_from(&mut self.blocks, &mut self.tail, place, message)?;
        self.len -= 1;
        join_around(&mut self.blocks, place);
        Some(found)
    }

    /// How many letters have at most the given message.
    pub(crate) fn count_to(&self, message: u32) -> usize
        ensures { result ≡ length (filter (is_to message) self.now.letters) }
    {
        // There are no more letters than the length counts.
        let _len = self.len;
        let place = block_of(&self.blocks, message);
        let before = total_len(&self.blocks[..place]);
        match self.blocks.get(place) {
            Some(block) => before + block.count_to(message),
            None => before + self.tail.count_to(message),
        }
    }
}

/// How many letters the blocks have.
fn total_len(blocks: &[Letters]) -> usize
    requires { length (all_of blocks.now) < 2 ^ 64 }
    ensures { result ≡ length (all_of blocks.now) }
{
    let mut total = 0;
    for block in blocks {
        total += block.len();
    }
    total
}

/// Puts a block behind the others, unless it is empty.
fn put_block(blocks: &mut Vec<Letters>, block: Letters)
    requires filled { AllFilled blocks.old.items }
    requires room { vec_len blocks.old < vec_capacity blocks.old }
    ensures letters { all_of blocks.new.items ≡ all_of blocks.old.items ++ block.letters }
    ensures filled { AllFilled blocks.new.items }
{
    if block.len() > 0 {
        blocks.push_reserved(block);
    }
}

/// How many blocks end below a message.
fn block_of(blocks: &[Letters], message: u32) -> usize
    requires ascending { IsAscending (all_of blocks.now) }
    requires filled { AllFilled blocks.now }
    ensures { IsBlockOf message blocks.now result }
{
    let mut low = 0;
    let mut high = blocks.len();
    while low < high {
        let middle = low + (high - low) / 2;
        if blocks[middle].ends_below(message) {
            low = middle + 1;
        } else {
            high = middle;
        }
    }
    low
}

/// Takes the letter of a message out of the block at a place, or out of the tail where there is no such block.
fn take_from(
    blocks: &mut Vec<Letters>,
    tail: &mut Letters,
    place: usize,
    message: u32,
) -> Option<Letter>
    requires ascending { IsAscending (all_of blocks.old.items ++ tail.old.letters) }
    requires filled { AllFilled blocks.old.items }
    requires place { IsBlockOf message blocks.old.items place }
    ensures found { result ≡ find (is_message message) (all_of blocks.old.items ++ tail.old.letters) }
    ensures rest { all_of blocks.new.items ++ tail.new.letters ≡ filter (is_other message) (all_of blocks.old.items ++ tail.old.letters) }
    ensures filled { AllFilled blocks.new.items }
    ensures none { IfNone result ((blocks.new.items ≡ blocks.old.items) × (tail.new ≡ tail.old)) }
    ensures room { tail.old.room ≤ tail.new.room }
{
    if place == blocks.len() {
        return tail.take_out(message);
    }
    take_in(blocks, place, message)
}

/// Takes the letter of a message out of one block, and the block too where nothing is left in it.
fn take_in(blocks: &mut Vec<Letters>, place: usize, message: u32) -> Option<Letter>
    requires place { place < vec_len blocks.old }
    requires filled { AllFilled blocks.old.items }
    ensures found { (d : WithRoom) → result ≡ find (is_message message) (slice_index_or blocks.old.items place d).letters }
    ensures rest { (d : WithRoom) → all_of blocks.new.items ≡ all_of (take place blocks.old.items) ++ (filter (is_other message) (slice_index_or blocks.old.items place d).letters ++ all_of (drop (place + 1) blocks.old.items)) }
    ensures filled { AllFilled blocks.new.items }
    ensures none { IfNone result (blocks.new.items ≡ blocks.old.items) }
{
    let found = blocks[place].take_out(message)?;
    if blocks[place].len() == 0 {
        let _ = blocks.remove(place);
    }
    Some(found)
}

/// Joins the block at a place with its neighbours where they fit, so that few letters don't stay in many blocks.
fn join_around(blocks: &mut Vec<Letters>, place: usize)
    requires ascending { IsAscending (all_of blocks.old.items) }
    requires filled { AllFilled blocks.old.items }
    ensures letters { all_of blocks.new.items ≡ all_of blocks.old.items }
    ensures filled { AllFilled blocks.new.items }
{
    join_next(blocks, place);
    if place > 0 {
        join_next(blocks, place - 1);
    }
}

/// Moves the letters of the block after a place into the one there, where they fit.
fn join_next(blocks: &mut Vec<Letters>, place: usize)
    requires ascending { IsAscending (all_of blocks.old.items) }
    requires filled { AllFilled blocks.old.items }
    ensures letters { all_of blocks.new.items ≡ all_of blocks.old.items }
    ensures filled { AllFilled blocks.new.items }
{
    let count = blocks.len();
    if count <= place {
        return;
    }
    if count - place == 1 {
        return;
    }
    if blocks[place].room() < blocks[place + 1].len() {
        return;
    }
    let next = blocks.remove(place + 1);
    blocks[place].append(&next);
}
