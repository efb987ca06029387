use ir::entities::{Inst, Opcode, Value};

// A call of a table.
#[derive(Clone, Copy)]
pub enum TableCall<'a> {
    Count,
    InstLimit,
    OperandLimit,
    OperandTotal,
    Opcode(Inst),
    OperandCount(Inst),
    Operand(Inst, u32),
    SetOperand(Inst, u32, Value),
    Add(Opcode, &'a [Value]),
    AddCopy(Inst),
}

// What an accepted call answers.
#[derive(Clone, Copy, PartialEq, Eq)]
pub enum TableReply {
    Number(u32),
    Code(Opcode),
    Holds(Value),
    Made(Inst),
    Done,
}
