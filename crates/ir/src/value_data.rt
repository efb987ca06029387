use crate::entities::{Block, Inst, Type, Value};

// What a value is.
#[derive(Clone, Copy, PartialEq, Eq)]
pub enum ValueData {
    // A result of an instruction, at a place of its result list.
    Inst { ty: Type, num: u16, inst: Inst },
    // A parameter of a block, at a place of its parameter list.
    Param { ty: Type, num: u16, block: Block },
    // Another name for a value.
    Alias { ty: Type, original: Value },
    // Either of two values.
    Union { ty: Type, x: Value, y: Value },
}

// The kind of a definition: its number is what the flags hold above the type.
#[derive(Clone, Copy, PartialEq, Eq)]
pub enum Tag {
    Inst,
    Param,
    Alias,
    Union,
}

// A definition in three fields: tag and type share the flags.
#[derive(Clone, Copy, PartialEq, Eq)]
pub struct ValueDataPacked {
    pub x: u32,
    pub y: u32,
    pub flags: u16,
}

// Where a value comes from.
#[derive(Clone, Copy, PartialEq, Eq)]
pub enum ValueDef {
    // A place among an instruction's results.
    Result(Inst, u32),
    // A place among a block's parameters.
    Param(Block, u32),
    // Either of two values.
    Union(Value, Value),
}
