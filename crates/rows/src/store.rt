ghost use Rattle.std.specs.Prelude.{◌≡◌, ◌≤◌, map, length, take};
ghost use Rattle.table.specs.Table.{total as operandsIn};
ghost use Rattle.rows.specs.Cells.{Apart, Below, Full, row_of};

use crate::cell::RowCell;
use ir::entities::Value;
use table::extent::Extent;

// Instructions in lent memory: up to three operands in the row, longer lists in one run of words, each behind the one before.
// The memory is lent whole, so what of it is in use stands beside it.
// Much of it is as in Chain, but the memory is of other types: a shared list of rows would hand each field through.
#[derive(Drop)]
pub struct Rows<'a> {
    pub(crate) rows: &'a mut [RowCell],
    pub(crate) words: &'a mut [Value],
    pub(crate) extent: Extent,
    pub(crate) used: usize,
    ghost rows_room: { extent.inst_limit ≤ length rows.now },
    ghost words_room: { extent.operand_limit ≤ length words.now },
    ghost used_some: { used ≤ extent.operand_total },
    ghost full: { Full words.now (take extent.count rows.now) },
    ghost below: { Below (take extent.count rows.now) used },
    ghost apart: { Apart (take extent.count rows.now) },
    ghost sums: { extent.operand_total ≡ operandsIn (map (row_of words.now) (take extent.count rows.now)) },
}
