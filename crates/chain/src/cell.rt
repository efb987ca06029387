use ir::entities::{Opcode, Value};

// An instruction: its operands lie in as many cells as count says, from the first on.
#[derive(Clone, Copy)]
pub struct ChainRow {
    pub opcode: Opcode,
    pub count: u32,
    pub first: u32,
}

impl ChainRow {
    // What memory for rows may hold at first.
    pub const EMPTY: ChainRow = ChainRow {
        opcode: Opcode(0),
        count: 0,
        first: 0,
    };
}

// An operand, and the cell of the next one. The last one's next is not followed.
#[derive(Clone, Copy)]
pub struct Link {
    pub value: Value,
    pub next: u32,
}

impl Link {
    // What memory for operands may hold at first.
    pub const EMPTY: Link = Link {
        value: Value(0),
        next: 0,
    };
}
