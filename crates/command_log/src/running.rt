ghost use Rattle.std.specs.Prelude.{◌≡◌};
ghost use Rattle.command_log.specs.Running.{outcome};

use crate::command::Command;
use crate::outcome::{Answer, Outcome};
use ir::block_arg::BlockArg;

impl Command {
    // Runs the command.
    pub fn run(self) -> Outcome
        ensures { result ≡ outcome self }
    {
        Ok(match self {
            Command::Pack(data) => Answer::Packed(data.pack()?),
            Command::Unpack(packed) => Answer::Unpacked(packed.unpack()?),
            Command::Encode(arg) => Answer::Encoded(arg.encode()?),
            Command::Decode(word) => Answer::Decoded(BlockArg::decode(word)?),
        })
    }
}
