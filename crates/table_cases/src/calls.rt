use ir::entities::{Inst, Opcode, Value};
use std::process::Abort;
use table::fault::TableFault;
use table::inst_table::InstTable;

pub(crate) fn adds<T: InstTable>(
    rt: &impl Abort,
    table: &mut T,
    opcode: u16,
    operands: &[Value],
    number: u32,
) {
    assert!(rt; table.add(Opcode(opcode), operands) == Ok(Inst(number)));
}

pub(crate) fn copies<T: InstTable>(rt: &impl Abort, table: &mut T, inst: u32, number: u32) {
    assert!(rt; table.add_copy(Inst(inst)) == Ok(Inst(number)));
}

pub(crate) fn sets<T: InstTable>(
    rt: &impl Abort,
    table: &mut T,
    inst: u32,
    place: u32,
    value: u32,
) {
    assert!(rt; table.set_operand(Inst(inst), place, Value(value)) == Ok(()));
}

// An instruction has this opcode and just these operands.
pub(crate) fn has<T: InstTable>(
    rt: &impl Abort,
    table: &T,
    inst: u32,
    opcode: u16,
    operands: &[Value],
) {
    let inst = Inst(inst);
    assert!(rt; table.opcode(inst) == Ok(Opcode(opcode)));
    assert!(rt; operands.len() < 1000);
    let n = operands.len() as u32;
    assert!(rt; table.operand_count(inst) == Ok(n));
    for (k, value) in operands.iter().enumerate() {
        assert!(rt; table.operand(inst, k as u32) == Ok(*value));
    }
    assert!(rt; table.operand(inst, n) == Err(TableFault::Unknown(n)));
}

pub(crate) fn counts<T: InstTable>(rt: &impl Abort, table: &T, insts: u32, operands: u32) {
    assert!(rt; table.count() == insts && table.operand_total() == operands);
}

pub(crate) fn limits<T: InstTable>(rt: &impl Abort, table: &T, insts: u32, operands: u32) {
    assert!(rt; table.inst_limit() == insts && table.operand_limit() == operands);
}
