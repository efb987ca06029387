ghost use Rattle.std.specs.Prelude.{◌≡◌, ◌+◌, ◌<◌, ◌≤◌, length, take, drop, IfOk, Ok, Err, slice_index_or};
ghost use Rattle.rows.specs.Cells.{operands_of};
ghost use Rattle.rows.specs.Reader.{reader_mean, operands_answer};
ghost use Rattle.rows.specs.Rows.{rows_mean};

use crate::cell::RowCell;
use crate::reader::RowsReader;
use crate::store::Rows;
use ir::entities::{Inst, Value};
use table::fault::TableFault;

impl RowCell {
    // Its operands, as part of the memory that holds them: the row, or the run of words.
    pub(crate) fn operands<'a>(&'a self, words: &'a [Value]) -> &'a [Value]
        requires { length (operands_of words.now self.now) ≡ self.now.count }
        ensures { result.now ≡ operands_of words.now self.now }
    {
        let n = self.count as usize;
        if self.is_short() {
            &self.short[..n]
        } else {
            let start = self.start as usize;
            &words[start..start + n]
        }
    }
}

impl<'a> RowsReader<'a> {
    // An instruction's operands, as part of the memory that holds them.
    pub fn operands(&self, inst: Inst) -> Result<&'a [Value], TableFault>
        ensures { elim result [ Ok slice ↦ Ok slice.now ≡ operands_answer (reader_mean self.now) inst | Err fault ↦ Err fault ≡ operands_answer (reader_mean self.now) inst ] }
    {
        let unknown = TableFault::Unknown(inst.0);
        let row = self.rows.get(inst.0 as usize).ok_or(unknown)?;
        Ok(row.operands(self.words))
    }
}

impl<'a> Rows<'a> {
    pub fn reader(&self) -> RowsReader<'_>
        ensures { reader_mean result ≡ (rows_mean self.now).rows }
    {
        RowsReader {
            rows: &self.rows[..self.extent.count as usize],
            words: self.words,
        }
    }
}
