ghost use Rattle.std.specs.Prelude.{◌≡◌, ◌<◌, IfOk, Ok};
ghost use Rattle.table.specs.Table.{Placed, count, at_inst, at_place};

use crate::fault::TableFault;
use crate::inst_table::InstTable;
use crate::storage::Storage;
use ir::entities::{Inst, Opcode, Value};

// The place of an instruction that exists.
fn known<S: Storage>(table: &S, inst: Inst) -> Result<usize, TableFault>
    ensures is { result ≡ at_inst (S.meaning table.now) inst (Ok inst.0) }
    ensures within { IfOk result (λ i. i < count (S.meaning table.now)) }
{
    if inst.0 >= Storage::extent(table).count {
        return Err(TableFault::Unknown(inst.0));
    }
    Ok(inst.0 as usize)
}

// The same, of one that has an operand at a place.
fn placed<S: Storage>(table: &S, inst: Inst, place: u32) -> Result<usize, TableFault>
    ensures is { result ≡ at_place (S.meaning table.now) inst place (Ok inst.0) }
    ensures within { IfOk result (λ i. Placed (S.meaning table.now) i place) }
{
    let i = known(table, inst)?;
    if place >= table.count_at(i) {
        return Err(TableFault::Unknown(place));
    }
    Ok(i)
}

// What is stored is a table: each call is judged here, for every storage.
impl<S: Storage> InstTable for S {
    ghost meaning = { S.meaning };

    ghost bounded = { S.bounded };

    // By the trait's name, here and below: every storage has both extents.
    fn count(&self) -> u32 {
        Storage::extent(self).count
    }

    fn inst_limit(&self) -> u32 {
        Storage::extent(self).inst_limit
    }

    fn operand_limit(&self) -> u32 {
        Storage::extent(self).operand_limit
    }

    fn operand_total(&self) -> u32 {
        Storage::extent(self).operand_total
    }

    fn opcode(&self, inst: Inst) -> Result<Opcode, TableFault> {
        let i = known(self, inst)?;
        Ok(self.opcode_at(i))
    }

    fn operand_count(&self, inst: Inst) -> Result<u32, TableFault> {
        let i = known(self, inst)?;
        Ok(self.count_at(i))
    }

    fn operand(&self, inst: Inst, place: u32) -> Result<Value, TableFault> {
        let i = placed(self, inst, place)?;
        Ok(self.read(i, place as usize))
    }

    fn set_operand(&mut self, inst: Inst, place: u32, value: Value) -> Result<(), TableFault> {
        let i = placed(self, inst, place)?;
        self.write(i, place as usize, value);
        Ok(())
    }

    fn add(&mut self, opcode: Opcode, operands: &[Value]) -> Result<Inst, TableFault> {
        let inst = Storage::extent(self).room(operands.len())?;
        self.push(opcode, operands);
        Ok(inst)
    }

    fn add_copy(&mut self, inst: Inst) -> Result<Inst, TableFault> {
        let i = known(self, inst)?;
        let copy = Storage::extent(self).room(self.count_at(i) as usize)?;
        self.push_copy(i);
        Ok(copy)
    }
}
