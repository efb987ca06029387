// Words of a tag of two bits with LOW bits below it: flags of a definition, and arguments of a block call.
// No type bounds a const parameter, so each function asks that LOW is at most 30.
ghost use Rattle.std.specs.Prelude.{◌≡◌, ◌+◌, ◌*◌, ◌%◌, ◌^◌, ◌<◌, ◌≤◌};
ghost use Rattle.ir.specs.Bits.{word_of};

use crate::fault::PackFault;

// The first number that LOW bits do not hold.
fn limit<const LOW: u32>() -> u32
    requires { LOW ≤ 30 }
    ensures { result ≡ 2 ^ LOW }
{
    1 << LOW
}

// Tag and payload side by side.
fn joined<const LOW: u32>(tag: u32, payload: u32) -> u32
    requires few { tag < 4 }
    requires narrow { LOW ≤ 30 }
    requires fits { payload < 2 ^ LOW }
    ensures { result ≡ tag * 2 ^ LOW + payload }
{
    (tag << LOW) | payload
}

// The word of a tag and a payload, or a refusal of the payload.
pub(crate) fn tagged<const LOW: u32>(tag: u32, payload: u32) -> Result<u32, PackFault>
    requires few { tag < 4 }
    requires narrow { LOW ≤ 30 }
    ensures { result ≡ word_of LOW tag payload }
{
    if payload >= limit::<LOW>() {
        return Err(PackFault::Wide(payload));
    }
    Ok(joined::<LOW>(tag, payload))
}

// What lies below the tag.
pub(crate) fn payload_of<const LOW: u32>(word: u32) -> u32
    requires { LOW ≤ 30 }
    ensures { result ≡ word % 2 ^ LOW }
{
    word & (limit::<LOW>() - 1)
}
