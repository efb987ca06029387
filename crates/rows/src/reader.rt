ghost use Rattle.rows.specs.Cells.{Full};

use crate::cell::RowCell;
use ir::entities::Value;

// The rows that there are, and the memory of words, lent for reading.
#[derive(Clone, Copy)]
pub struct RowsReader<'a> {
    pub(crate) rows: &'a [RowCell],
    pub(crate) words: &'a [Value],
    ghost full: { Full words.now rows.now },
}
