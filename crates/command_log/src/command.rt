use ir::block_arg::BlockArg;
use ir::value_data::{ValueData, ValueDataPacked};

// What a line of a log asks for.
#[derive(Clone, Copy, PartialEq, Eq)]
pub enum Command {
    Pack(ValueData),
    Unpack(ValueDataPacked),
    Encode(BlockArg),
    Decode(u32),
}
