ghost use Rattle.std.specs.Prelude.{Some};
ghost use Rattle.ir.specs.Writing.{spaced};
ghost use Rattle.command_log.specs.Writing.{line, of_answer, of_command};

use crate::command::Command;
use crate::outcome::{Answer, Line};
use ir::fault::Refused;
use std::fmt;

impl fmt::Display for Command {
    ghost output = { λ c. Some (spaced (of_command c)) };

    fn fmt<W: fmt::Write>(&self, f: &mut fmt::Formatter<W>) -> fmt::Result {
        match *self {
            Command::Pack(data) => write!(f, "pack {data}"),
            Command::Unpack(packed) => write!(f, "unpack {packed}"),
            Command::Encode(arg) => write!(f, "encode {arg}"),
            Command::Decode(word) => write!(f, "decode {word}"),
        }
    }
}

impl fmt::Display for Answer {
    ghost output = { λ a. Some (spaced (of_answer a)) };

    fn fmt<W: fmt::Write>(&self, f: &mut fmt::Formatter<W>) -> fmt::Result {
        match *self {
            Answer::Packed(packed) => write!(f, "{packed}"),
            Answer::Unpacked(data) => write!(f, "{data}"),
            Answer::Encoded(word) => write!(f, "{word}"),
            Answer::Decoded(arg) => write!(f, "{arg}"),
        }
    }
}

impl fmt::Display for Line {
    ghost output = { λ l. Some (line l) };

    fn fmt<W: fmt::Write>(&self, f: &mut fmt::Formatter<W>) -> fmt::Result {
        let command = self.command;
        match self.outcome {
            Ok(answer) => write!(f, "{command} => {answer}"),
            Err(fault) => write!(f, "{command} => {}", Refused(fault)),
        }
    }
}
