use crate::command::Command;
use ir::block_arg::BlockArg;
use ir::fault::PackFault;
use ir::value_data::{ValueData, ValueDataPacked};

// What a command answers.
#[derive(Clone, Copy, PartialEq, Eq)]
pub enum Answer {
    Packed(ValueDataPacked),
    Unpacked(ValueData),
    Encoded(u32),
    Decoded(BlockArg),
}

// What came of a command: its answer, or why it is refused.
pub type Outcome = Result<Answer, PackFault>;

// A line of the record: a command and what came of it.
#[derive(Clone, Copy, PartialEq, Eq)]
pub struct Line {
    pub command: Command,
    pub outcome: Outcome,
}
