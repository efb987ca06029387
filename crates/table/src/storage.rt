ghost use Rattle.std.specs.Prelude.{◌≡◌, ◌<◌, length, slice_index_or};
ghost use Rattle.table.specs.Table.{Table, Bounded, Placed, Fits, count, row, operands, no_value, with_operand, with_row};
ghost use Rattle.table.specs.Extents.{Measures};

use crate::extent::Extent;
use ir::entities::{Opcode, Value};

// For the crates that hold a table's instructions in memory: what they do once a call is judged.
// Who uses a table calls InstTable, which every storage is.
pub trait Storage {
    ghost meaning: { Self → Table };

    ghost bounded: { (s : Self) → Bounded (meaning s) };

    fn extent(&self) -> Extent
        ensures { Measures result (meaning self.now) };

    fn opcode_at(&self, i: usize) -> Opcode
        requires { i < count (meaning self.now) }
        ensures { result ≡ (row (meaning self.now) i).opcode };

    fn count_at(&self, i: usize) -> u32
        requires { i < count (meaning self.now) }
        ensures { result ≡ length (operands (meaning self.now) i) };

    fn read(&self, i: usize, place: usize) -> Value
        requires { Placed (meaning self.now) i place }
        ensures { result ≡ slice_index_or (operands (meaning self.now) i) place no_value };

    fn write(&mut self, i: usize, place: usize, value: Value)
        requires { Placed (meaning self.old) i place }
        ensures { meaning self.new ≡ with_operand (meaning self.old) i place value };

    fn push(&mut self, opcode: Opcode, operands: &[Value])
        requires { Fits (meaning self.old) (length operands.now) }
        ensures { meaning self.new ≡ with_row (meaning self.old) (record { opcode = opcode; operands = operands.now }) };

    // Adds a copy of the i-th instruction.
    fn push_copy(&mut self, i: usize)
        requires known { i < count (meaning self.old) }
        requires fits { Fits (meaning self.old) (length (operands (meaning self.old) i)) }
        ensures { meaning self.new ≡ with_row (meaning self.old) (row (meaning self.old) i) };
}
