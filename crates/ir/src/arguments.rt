ghost use Rattle.std.specs.Prelude.{◌≡◌, ◌/◌, Ok, Err};
ghost use Rattle.ir.specs.declared.block_arg.BlockArg.TheVariants.{Value as ValueArg};
ghost use Rattle.ir.specs.Arguments.{decoded, encoded, value_of};

use crate::bits::{payload_of, tagged};
use crate::block_arg::BlockArg;
use crate::entities::Value;
use crate::fault::PackFault;

const BITS: u32 = 30;

// The tags 0, 1 and 2 stand as numbers in encode and decode alone: an enum of them would be BlockArg once more.
impl BlockArg {
    // The word that holds an argument, or a refusal of its payload. Decoding it gives the argument back.
    pub fn encode(self) -> Result<u32, PackFault>
        ensures says { result ≡ encoded self }
        ensures back { elim result [ Ok w ↦ decoded w ≡ Ok self | Err _ ↦ Unit {0} ] }
    {
        match self {
            BlockArg::Value(v) => tagged::<BITS>(0, v.0),
            BlockArg::TryCallRet(n) => tagged::<BITS>(1, n),
            BlockArg::TryCallExn(n) => tagged::<BITS>(2, n),
        }
    }

    // The argument that a word holds; tag 3 is none. Encoding it gives the word back.
    pub fn decode(word: u32) -> Result<BlockArg, PackFault>
        ensures says { result ≡ decoded word }
        ensures again { elim result [ Ok a ↦ encoded a ≡ Ok word | Err _ ↦ word / 1073741824 ≡ 3 ] }
    {
        let payload = payload_of::<BITS>(word);
        match word >> BITS {
            0 => Ok(BlockArg::Value(Value(payload))),
            1 => Ok(BlockArg::TryCallRet(payload)),
            2 => Ok(BlockArg::TryCallExn(payload)),
            _ => Err(PackFault::Tag(word)),
        }
    }

    // The value, where the argument is one.
    pub fn as_value(self) -> Option<Value>
        ensures { result ≡ value_of self }
    {
        match self {
            BlockArg::Value(v) => Some(v),
            BlockArg::TryCallRet(_) | BlockArg::TryCallExn(_) => None,
        }
    }
}

impl From<Value> for BlockArg {
    ghost from_gives = { λ v r. r ≡ ValueArg v };

    fn from(value: Value) -> BlockArg {
        BlockArg::Value(value)
    }
}
