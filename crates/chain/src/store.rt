ghost use Rattle.std.specs.Prelude.{◌≡◌, ◌≤◌, map, length, take};
ghost use Rattle.table.specs.Table.{total as operandsIn};
ghost use Rattle.chain.specs.Links.{Apart, Below, Linked, row_of};

use crate::cell::{ChainRow, Link};
use table::extent::Extent;

// Instructions in lent memory, each operand in a cell that names the next.
// The memory is lent whole, so what of it is in use stands beside it: as many cells as operands.
// Much of it is as in Rows, but the memory is of other types: a shared list of rows would hand each field through.
#[derive(Drop)]
pub struct Chain<'a> {
    pub(crate) rows: &'a mut [ChainRow],
    pub(crate) links: &'a mut [Link],
    pub(crate) extent: Extent,
    ghost rows_room: { extent.inst_limit ≤ length rows.now },
    ghost links_room: { extent.operand_limit ≤ length links.now },
    ghost linked: { Linked links.now (take extent.count rows.now) },
    ghost below: { Below (take extent.count rows.now) extent.operand_total },
    ghost apart: { Apart (take extent.count rows.now) },
    ghost sums: { extent.operand_total ≡ operandsIn (map (row_of links.now) (take extent.count rows.now)) },
}
