ghost use Rattle.std.specs.Prelude.{◌≡◌, ◌+◌, ◌^◌, ◌<◌, ◌≤◌, min, length, take, drop};
ghost use Rattle.table.specs.Table.{Placed, Fits, empty, count, row as row_at, operands as operandsAt, with_operand, with_row};
ghost use Rattle.rows.specs.Cells.{at, operands_of, row_of};
ghost use Rattle.rows.specs.Rows.{rows_mean, rows_bounded, Same};

use crate::cell::{RowCell, SHORT};
use crate::store::Rows;
use ir::entities::{Opcode, Value};
use table::extent::Extent;
use table::storage::Storage;

// Up to three operands as they lie in a row.
fn short_of(operands: &[Value]) -> [Value; SHORT]
    requires { length operands.now ≤ 3 }
    ensures { take (length operands.now) result ≡ operands.now }
{
    let mut short = [Value(0); SHORT];
    short[..operands.len()].copy_from_slice(operands);
    short
}

impl<'a> Rows<'a> {
    // No instructions yet.
    pub fn new(rows: &'a mut [RowCell], words: &'a mut [Value]) -> Self
        ensures { rows_mean result ≡ empty (min (length rows.old) (2 ^ 30)) (min (length words.old) (2 ^ 30)) }
    {
        let extent = Extent::new(rows.len(), words.len());
        Rows {
            rows,
            words,
            extent,
            used: 0,
        }
    }

    fn row(&self, i: usize) -> RowCell
        requires { i < count (rows_mean self.now) }
        ensures cell { result ≡ at self.now.rows.now i }
        ensures opcode { result.opcode ≡ (row_at (rows_mean self.now) i).opcode }
        ensures count { result.count ≡ length (operandsAt (rows_mean self.now) i) }
    {
        self.rows[i]
    }

    fn write_short(&mut self, i: usize, place: usize, value: Value)
        requires placed { Placed (rows_mean self.old) i place }
        requires few { (at self.old.rows.now i).count ≤ 3 }
        ensures { rows_mean self.new ≡ with_operand (rows_mean self.old) i place value }
    {
        self.rows[i].short[place] = value;
    }

    fn write_long(&mut self, i: usize, place: usize, value: Value)
        requires placed { Placed (rows_mean self.old) i place }
        requires many { 3 < (at self.old.rows.now i).count }
        ensures { rows_mean self.new ≡ with_operand (rows_mean self.old) i place value }
    {
        let start = self.rows[i].start as usize;
        self.words[start + place] = value;
    }

    // Adds a row, whose operands lie in it or in the words behind the used ones.
    fn push_row(&mut self, row: RowCell)
        requires fits { Fits (rows_mean self.old) row.count }
        requires whole { length (operands_of self.old.words.now row) ≡ row.count }
        requires behind { 3 < row.count → row.start ≡ self.old.used }
        ensures { rows_mean self.new ≡ with_row (rows_mean self.old) (row_of self.old.words.now row) }
    {
        self.rows[self.extent.count as usize] = row;
        self.extent.count += 1;
        self.extent.operand_total += row.count;
        self.used += row.words();
    }

    // Writes operands behind the used words.
    fn fill(&mut self, operands: &[Value])
        requires { Fits (rows_mean self.old) (length operands.now) }
        ensures words { take (length operands.now) (drop self.old.used self.new.words.now) ≡ operands.now }
        ensures same { Same self.old self.new }
    {
        let used = self.used;
        self.words[used..used + operands.len()].copy_from_slice(operands);
    }

    // Writes a copy of n used words behind them.
    fn repeat(&mut self, start: usize, n: usize)
        requires source { start + n ≤ self.old.used }
        requires fits { Fits (rows_mean self.old) n }
        ensures words { take n (drop self.old.used self.new.words.now) ≡ take n (drop start self.old.words.now) }
        ensures same { Same self.old self.new }
    {
        let used = self.used;
        self.words.copy_within(start..start + n, used);
    }
}

impl<'a> Storage for Rows<'a> {
    ghost meaning = { rows_mean };

    ghost bounded = { rows_bounded };

    fn extent(&self) -> Extent {
        self.extent
    }

    fn opcode_at(&self, i: usize) -> Opcode {
        self.row(i).opcode
    }

    fn count_at(&self, i: usize) -> u32 {
        self.row(i).count
    }

    fn read(&self, i: usize, place: usize) -> Value {
        self.row(i).operands(self.words)[place]
    }

    fn write(&mut self, i: usize, place: usize, value: Value) {
        let row = self.row(i);
        if row.is_short() {
            self.write_short(i, place, value);
        } else {
            self.write_long(i, place, value);
        }
    }

    fn push(&mut self, opcode: Opcode, operands: &[Value]) {
        let row = RowCell {
            opcode,
            count: operands.len() as u32,
            ..RowCell::EMPTY
        };
        if row.is_short() {
            let short = short_of(operands);
            self.push_row(RowCell { short, ..row });
        } else {
            let start = self.used as u32;
            self.fill(operands);
            self.push_row(RowCell { start, ..row });
        }
    }

    fn push_copy(&mut self, i: usize) {
        let source = self.row(i);
        if source.is_short() {
            self.push_row(source);
        } else {
            let start = self.used as u32;
            self.repeat(source.start as usize, source.count as usize);
            self.push_row(RowCell { start, ..source });
        }
    }
}
