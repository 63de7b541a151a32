//! The columns of a picture.
ghost use Rattle.std.specs.Prelude.{◌≡◌, ◌≤◌, ◌<◌, ◌^◌, length, IfOk, All, ℕ, Some};
ghost use Rattle.tau_layout.specs.Inner.Marking.{IsNodesMarked};
ghost use Rattle.tau_layout.specs.Inner.Laying.{AreColumns, AreRanks, Ranks};

use crate::groups::marked_below;
use crate::lanes::Lane;
use std::alloc::{AllocError, Global};
use tau_svg::shapes::Grid;

/// A transactor that has a lane, with its node, and the middle of the lane.
#[derive(Clone, Copy)]
pub struct Column {
    pub who: u32,
    pub node: u32,
    pub x: u64,
}

/// The columns of lanes.
pub(crate) fn columns_of(
    alloc: Global,
    lanes: &[Lane],
    grid: Grid,
    nodes: u32,
    marks: &[bool],
) -> Result<Vec<Column>, AllocError>
    requires least { 28 ≤ grid.lane }
    requires lane { grid.lane ≤ 116 }
    requires few { length lanes.now < 2 ^ 40 }
    requires marks { IsNodesMarked lanes.now nodes marks.now }
    requires nodes { All (λ l. l.node < nodes) lanes.now }
    ensures { IfOk result (λ v. AreColumns grid lanes.now (length lanes.now) v.items) }
{
    let mut columns = Vec::new(alloc);
    for (rank, lane) in lanes.iter().enumerate() {
        columns.push(Column {
            who: lane.who,
            node: lane.node,
            x: grid.x(rank, marked_below(marks, lane.node)),
        })?;
    }
    Ok(columns)
}

/// Notes the rank of a transactor's lane.
fn put_rank(ranks: &mut Vec<Option<usize>>, who: u32, rank: usize)
    ensures { Ranks who rank ranks.old.items ranks.new.items }
{
    if who as usize >= ranks.len() {
        return;
    }
    ranks[who as usize] = Some(rank);
}

/// For each transactor how many lanes stand before its own; `None` where it has none.
pub(crate) fn ranks_of(
    alloc: Global,
    lanes: &[Lane],
    born: u32,
) -> Result<Vec<Option<usize>>, AllocError>
    ensures ranks { IfOk result (λ v. AreRanks lanes.now (length lanes.now) v.items) }
    ensures count { IfOk result (λ v. length v.items ≡ born) }
{
    let mut ranks = vec![in alloc; None; born as usize]?;
    for (rank, lane) in lanes.iter().enumerate() {
        put_rank(&mut ranks, lane.who, rank);
    }
    Ok(ranks)
}
