use std::fmt;

// What a line that is no command should have been.
#[derive(Clone, Copy, Debug, PartialEq, Eq)]
pub enum Expected {
    Command,
    Pack,
    Unpack,
    Encode,
    Decode,
}

impl fmt::Display for Expected {
    fn fmt<W: fmt::Write>(&self, f: &mut fmt::Formatter<W>) -> fmt::Result {
        f.write_str(match self {
            Expected::Command => "pack, unpack, encode or decode",
            Expected::Pack =>
                "pack result TYPE NUM INST, param TYPE NUM BLOCK, alias TYPE VALUE or union TYPE X Y",
            Expected::Unpack => "unpack X Y FLAGS",
            Expected::Encode => "encode value N, ret N or exn N",
            Expected::Decode => "decode WORD",
        })
    }
}
