ghost use Rattle.rows.specs.Rows.{rows_mean, rows_bounded};

use crate::handed_on::HandedOn;
use ir::entities::{Inst, Opcode, Value};
use table::fault::TableFault;
use table::inst_table::InstTable;

impl<'a> InstTable for HandedOn<'a> {
    ghost meaning = { λ s. rows_mean s.table };

    ghost bounded = { λ s. rows_bounded s.table };

    fn count(&self) -> u32 {
        self.table.count()
    }

    fn inst_limit(&self) -> u32 {
        self.table.inst_limit()
    }

    fn operand_limit(&self) -> u32 {
        self.table.operand_limit()
    }

    fn operand_total(&self) -> u32 {
        self.table.operand_total()
    }

    fn opcode(&self, inst: Inst) -> Result<Opcode, TableFault> {
        self.table.opcode(inst)
    }

    fn operand_count(&self, inst: Inst) -> Result<u32, TableFault> {
        self.table.operand_count(inst)
    }

    fn operand(&self, inst: Inst, place: u32) -> Result<Value, TableFault> {
        self.table.operand(inst, place)
    }

    fn set_operand(&mut self, inst: Inst, place: u32, value: Value) -> Result<(), TableFault> {
        self.table.set_operand(inst, place, value)
    }

    fn add(&mut self, opcode: Opcode, operands: &[Value]) -> Result<Inst, TableFault> {
        self.table.add(opcode, operands)
    }

    fn add_copy(&mut self, inst: Inst) -> Result<Inst, TableFault> {
        self.table.add_copy(inst)
    }
}
