ghost use Rattle.std.specs.Prelude.{◌≡◌, ◌≤◌, cond, nat_le};

use ir::entities::{Opcode, Value};

// How many operands lie in a row at most.
pub(crate) const SHORT: usize = 3;

// An instruction: up to three operands lie in it, longer lists in the run of words from start.
// Count, which every reader needs, tells which of start and short is meant: an enum of the two would say it again.
#[derive(Clone, Copy)]
pub struct RowCell {
    pub opcode: Opcode,
    pub count: u32,
    pub start: u32,
    pub short: [Value; SHORT],
}

impl RowCell {
    // What memory for rows may hold at first.
    pub const EMPTY: RowCell = RowCell {
        opcode: Opcode(0),
        count: 0,
        start: 0,
        short: [Value(0); SHORT],
    };

    // Whether its operands lie in it.
    pub(crate) fn is_short(self) -> bool
        ensures { result ≡ nat_le self.count 3 }
    {
        self.count as usize <= SHORT
    }

    // How many of the words its operands take.
    pub(crate) fn words(self) -> usize
        ensures is { result ≡ cond (nat_le self.count 3) 0 self.count }
        ensures most { result ≤ self.count }
    {
        if self.is_short() {
            0
        } else {
            self.count as usize
        }
    }
}
