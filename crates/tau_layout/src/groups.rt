//! The nodes that have a lane, and the lengths of names.
ghost use Rattle.std.specs.Prelude.{◌≡◌, ◌≤◌, ◌<◌, length, IfOk};
ghost use Rattle.tau_layout.specs.Lanes as lanes_specs;
ghost use Rattle.tau_layout.specs.Inner.Marking.{Marks, IsNodesMarked, one_if_marked, marked_below as count_marked};

use crate::lanes::Lane;
use itoa::Buffer;
use std::alloc::{AllocError, Global};
use tau_trace::Opening;
use tau_value::Names;

/// Marks a node.
fn mark_node(marks: &mut Vec<bool>, node: u32)
    ensures { Marks (λ n. n ≡ node) marks.old.items marks.new.items }
{
    if node as usize >= marks.len() {
        return;
    }
    marks[node as usize] = true;
}

/// For each node whether a lane stands at it.
pub(crate) fn nodes_marked(
    alloc: Global,
    lanes: &[Lane],
    nodes: u32,
) -> Result<Vec<bool>, AllocError>
    ensures { IfOk result (λ v. IsNodesMarked lanes.now nodes v.items) }
{
    let mut marks = vec![in alloc; false; nodes as usize]?;
    for lane in lanes {
        mark_node(&mut marks, lane.node);
    }
    Ok(marks)
}

/// How many of the numbers below one are marked.
pub(crate) fn marked_below(marks: &[bool], bound: u32) -> u32
    ensures count { result ≡ count_marked marks.now bound }
    ensures most { result ≤ bound }
{
    let mut count = 0;
    for number in 0..bound {
        count += one_if(marks, number);
    }
    count
}

/// 1 where a number is marked, and else 0.
fn one_if(marks: &[bool], number: u32) -> u32
    ensures { result ≡ one_if_marked marks.now number }
{
    match marks.get(number as usize) {
        Some(mark) => u32::from(*mark),
        None => 0,
    }
}

/// The number of bytes of the name of a transactor, or 12 where it has more.
fn name_length(names: &Names, who: u32) -> u32
    ensures length { result ≡ lanes_specs.name_length names.now who }
    ensures most { result ≤ 12 }
{
    match names.item(who as usize) {
        Some(name) => name.len().min(12) as u32,
        None => {
            let mut buffer = Buffer::new();
            buffer.format(who).len().min(12) as u32
        }
    }
}

/// The most bytes of a lane's name, each counted as 12 at most.
pub(crate) fn longest_name(names: &Names, lanes: &[Lane]) -> u32
    ensures longest { result ≡ lanes_specs.longest_name names.now lanes.now }
    ensures most { result ≤ 12 }
{
    let mut longest = 0;
    for lane in lanes {
        longest = name_length(names, lane.who).max(longest);
    }
    longest
}
