ghost use Rattle.std.specs.Prelude.{◌≡◌, length, OnErr};
ghost use Rattle.table.specs.Table.{Table, Bounded, total, count as rowCount, opcode_answer, operand_count_answer, operand_answer, set_answer, set_table, add_answer, add_table, copy_answer, copy_table};
ghost use Rattle.table.specs.Extents.{Measures};

use crate::extent::Extent;
use crate::fault::TableFault;
use ir::entities::{Inst, Opcode, Value};

// A table of instructions, each an opcode and a list of operands, numbered from 0 as they are added.
pub trait InstTable {
    ghost meaning: { Self → Table };

    // Limits are at most 2^30, and neither is passed.
    ghost bounded: { (t : Self) → Bounded (meaning t) };

    fn count(&self) -> u32
        ensures { result ≡ rowCount (meaning self.now) };

    // How many instructions there may be.
    fn inst_limit(&self) -> u32
        ensures { result ≡ (meaning self.now).insts };

    // How many operands there may be, of all instructions together.
    fn operand_limit(&self) -> u32
        ensures { result ≡ (meaning self.now).words };

    // How many operands all instructions have together.
    fn operand_total(&self) -> u32
        ensures { result ≡ total (meaning self.now).rows };

    // The four numbers together, for who keeps them as one to answer at once.
    fn extent(&self) -> Extent
        ensures { Measures result (meaning self.now) }
    {
        Extent {
            count: self.count(),
            inst_limit: self.inst_limit(),
            operand_total: self.operand_total(),
            operand_limit: self.operand_limit(),
        }
    }

    fn opcode(&self, inst: Inst) -> Result<Opcode, TableFault>
        ensures { result ≡ opcode_answer (meaning self.now) inst };

    fn operand_count(&self, inst: Inst) -> Result<u32, TableFault>
        ensures { result ≡ operand_count_answer (meaning self.now) inst };

    fn operand(&self, inst: Inst, place: u32) -> Result<Value, TableFault>
        ensures { result ≡ operand_answer (meaning self.now) inst place };

    fn set_operand(&mut self, inst: Inst, place: u32, value: Value) -> Result<(), TableFault>
        ensures says { result ≡ set_answer (meaning self.old) inst place }
        ensures holds { meaning self.new ≡ set_table (meaning self.old) inst place value }
        ensures kept { OnErr result (self.new ≡ self.old) };

    // Adds an instruction behind the last and answers its number.
    fn add(&mut self, opcode: Opcode, operands: &[Value]) -> Result<Inst, TableFault>
        ensures says { result ≡ add_answer (meaning self.old) (length operands.now) }
        ensures holds { meaning self.new ≡ add_table (meaning self.old) opcode operands.now }
        ensures kept { OnErr result (self.new ≡ self.old) };

    // Adds a copy of an instruction behind the last and answers its number.
    fn add_copy(&mut self, inst: Inst) -> Result<Inst, TableFault>
        ensures says { result ≡ copy_answer (meaning self.old) inst }
        ensures holds { meaning self.new ≡ copy_table (meaning self.old) inst }
        ensures kept { OnErr result (self.new ≡ self.old) };
}
