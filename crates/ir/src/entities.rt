// The numbers that name things. Each wraps its own integer, so that none can be handed over for another.

// A value, counted from 0 as values are made.
#[derive(Clone, Copy, PartialEq, Eq)]
pub struct Value(pub u32);

// An instruction, counted from 0 as instructions are made.
#[derive(Clone, Copy, PartialEq, Eq)]
pub struct Inst(pub u32);

// A block, counted from 0 as blocks are made.
#[derive(Clone, Copy, PartialEq, Eq)]
pub struct Block(pub u32);

// The type of a value. Type 0 is INVALID; a type below 16,384 can be stored.
#[derive(Clone, Copy, PartialEq, Eq)]
pub struct Type(pub u16);

// What an instruction does.
#[derive(Clone, Copy, PartialEq, Eq)]
pub struct Opcode(pub u16);

impl Value {
    // The number that names no value.
    pub const RESERVED: Value = Value(0xFFFF_FFFF);
}

impl Type {
    // The type of nothing.
    pub const INVALID: Type = Type(0);
}
