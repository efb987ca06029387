ghost use Rattle.std.specs.Prelude.{◌≡◌, ℕ, ◌<◌, List, [], ◌∷◌, Ok, Err, decimal};
ghost use Rattle.std.specs.Result.{result_ok};
ghost use Rattle.command_log.specs.Reading.{Reads, ReadsThree, ReadsTwo, arg_fits, data_fits, expected, fits, packed_fits, padded, texts};
ghost use Rattle.ir.specs.Writing.{of_arg, of_data, of_packed};
ghost use Rattle.command_log.specs.Writing.{of_command};

use crate::command::Command;
use crate::expected::Expected;
use ir::block_arg::BlockArg;
use ir::entities::{Block, Inst, Type, Value};
use ir::value_data::{ValueData, ValueDataPacked};

// Whether a sign or a zero stands in front of a number.
fn is_padded(word: &[u8]) -> bool
    ensures { result ≡ padded word.now }
{
    matches!(word, [b'+', ..] | [b'0', _, ..])
}

// A number that a word of a log writes: decimal, with neither a sign nor a zero in front.
trait Numeral: Sized + Drop {
    ghost written: { Self → List ℕ };

    ghost bounded: { Self → Type 0 };

    fn read(word: &str) -> Option<Self>
        ensures { Reads written bounded word.now result };
}

impl Numeral for u32 {
    ghost written = { λ n. decimal n };

    ghost bounded = { λ n. n < 4294967296 };

    fn read(word: &str) -> Option<u32> {
        if is_padded(word.as_bytes()) {
            return None;
        }
        word.parse().ok()
    }
}

impl Numeral for u16 {
    ghost written = { λ n. decimal n };

    ghost bounded = { λ n. n < 65536 };

    fn read(word: &str) -> Option<u16> {
        u16::try_from(u32::read(word)?).ok()
    }
}

// The number that the only word writes.
fn one<A: Numeral>(words: &[&str]) -> Option<A>
    ensures { Reads (λ a. A.written a ∷ []) A.bounded (texts words.now) result }
{
    match words {
        [word] => A::read(word),
        _ => None,
    }
}

// The two numbers that two words write.
fn two<A: Numeral, B: Numeral>(words: &[&str]) -> Option<(A, B)>
    ensures { ReadsTwo (λ a b. A.written a ∷ B.written b ∷ []) (λ a b. A.bounded a × B.bounded b) (texts words.now) result }
{
    let (first, rest) = words.split_first()?;
    A::read(first).zip(one(rest))
}

// The three numbers that three words write.
fn three<A: Numeral, B: Numeral, C: Numeral>(words: &[&str]) -> Option<(A, (B, C))>
    ensures { ReadsThree (λ a b c. A.written a ∷ B.written b ∷ C.written c ∷ []) (λ a b c. A.bounded a × (B.bounded b × C.bounded c)) (texts words.now) result }
{
    let (first, rest) = words.split_first()?;
    A::read(first).zip(two(rest))
}

// A definition, by its kind.
fn data_of(words: &[&str]) -> Option<ValueData>
    ensures { Reads of_data data_fits (texts words.now) result }
{
    let (&kind, rest) = words.split_first()?;
    match kind {
        "result" => three(rest).map(|(ty, (num, inst))| ValueData::Inst {
            ty: Type(ty),
            num,
            inst: Inst(inst),
        }),
        "param" => three(rest).map(|(ty, (num, block))| ValueData::Param {
            ty: Type(ty),
            num,
            block: Block(block),
        }),
        "alias" => two(rest).map(|(ty, original)| ValueData::Alias {
            ty: Type(ty),
            original: Value(original),
        }),
        "union" => three(rest).map(|(ty, (x, y))| ValueData::Union {
            ty: Type(ty),
            x: Value(x),
            y: Value(y),
        }),
        _ => None,
    }
}

// The three fields of a packed definition.
fn packed_of(words: &[&str]) -> Option<ValueDataPacked>
    ensures { Reads of_packed packed_fits (texts words.now) result }
{
    three(words).map(|(x, (y, flags))| ValueDataPacked { x, y, flags })
}

// An argument of a block call, by its kind.
fn arg_of(words: &[&str]) -> Option<BlockArg>
    ensures { Reads of_arg arg_fits (texts words.now) result }
{
    let (&kind, rest) = words.split_first()?;
    match kind {
        "value" => one(rest).map(|n| BlockArg::Value(Value(n))),
        "ret" => one(rest).map(BlockArg::TryCallRet),
        "exn" => one(rest).map(BlockArg::TryCallExn),
        _ => None,
    }
}

// The command that is written with these words, or what was expected of them.
pub fn command_of(words: &[&str]) -> Result<Command, Expected>
    ensures reads { Reads of_command fits (texts words.now) (result_ok result) }
    ensures expects { elim result [ Ok _ ↦ Unit {0} | Err e ↦ e ≡ expected (texts words.now) ] }
{
    let (&name, rest) = words.split_first().ok_or(Expected::Command)?;
    match name {
        "pack" => data_of(rest).map(Command::Pack).ok_or(Expected::Pack),
        "unpack" => packed_of(rest).map(Command::Unpack).ok_or(Expected::Unpack),
        "encode" => arg_of(rest).map(Command::Encode).ok_or(Expected::Encode),
        "decode" => one(rest).map(Command::Decode).ok_or(Expected::Decode),
        _ => Err(Expected::Command),
    }
}
