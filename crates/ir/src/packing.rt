ghost use Rattle.std.specs.Prelude.{◌≡◌, ◌+◌, ◌*◌, ◌≢◌, ◌⊎◌, ◌↔◌, Ok, Err};
ghost use Rattle.ir.specs.Packing.{beside, fields, number_of, packed, place, tag_of, type_of, unpacked};

use crate::bits::{payload_of, tagged};
use crate::entities::{Block, Inst, Type, Value};
use crate::fault::PackFault;
use crate::value_data::{Tag, ValueData, ValueDataPacked};

const TYPE_BITS: u32 = 14;

// A place in a list, which a packed definition holds in 32 bits, as the 16 bits that it has.
fn narrow(x: u32) -> Result<u16, PackFault>
    ensures { result ≡ place x }
{
    u16::try_from(x).map_err(|_| PackFault::Wide(x))
}

impl ValueDataPacked {
    // The retired mark, packed.
    pub const RETIRED: ValueDataPacked = ValueDataPacked {
        x: 0,
        y: 0xFFFF_FFFF,
        flags: 0x8000,
    };

    // The fields of a definition by its tag, or a refusal of its type.
    fn make(tag: Tag, ty: Type, x: u32, y: u32) -> Result<ValueDataPacked, PackFault>
        ensures { result ≡ beside ty (fields (number_of tag) ty x y) }
    {
        let flags = tagged::<TYPE_BITS>(tag as u32, ty.0 as u32)? as u16;
        Ok(ValueDataPacked { x, y, flags })
    }

    // The kind of definition that the fields hold.
    pub fn tag(self) -> Tag
        ensures { number_of result ≡ tag_of self }
    {
        match self.flags >> TYPE_BITS {
            0 => Tag::Inst,
            1 => Tag::Param,
            2 => Tag::Alias,
            _ => Tag::Union,
        }
    }

    // The type, off the flags alone. Tag and type give the flags back.
    pub fn ty(self) -> Type
        ensures says { result ≡ type_of self }
        ensures split { tag_of self * 16384 + result.0 ≡ self.flags }
    {
        Type(payload_of::<TYPE_BITS>(self.flags as u32) as u16)
    }

    // The definition that the three fields hold. Packing it again gives the same fields, unless it is an alias with a stray x.
    pub fn unpack(self) -> Result<ValueData, PackFault>
        ensures says { result ≡ unpacked self }
        ensures again { elim result [ Ok d ↦ ((packed d ≡ Ok self) ↔ ((tag_of self ≢ 2) ⊎ (self.x ≡ 0))) | Err _ ↦ Unit {0} ] }
    {
        let ty = self.ty();
        match self.tag() {
            Tag::Inst => Ok(ValueData::Inst {
                ty,
                num: narrow(self.x)?,
                inst: Inst(self.y),
            }),
            Tag::Param => Ok(ValueData::Param {
                ty,
                num: narrow(self.x)?,
                block: Block(self.y),
            }),
            Tag::Alias => Ok(ValueData::Alias {
                ty,
                original: Value(self.y),
            }),
            Tag::Union => Ok(ValueData::Union {
                ty,
                x: Value(self.x),
                y: Value(self.y),
            }),
        }
    }
}

impl ValueData {
    // The three fields that hold a definition, or a refusal of its type. Unpacking them gives the definition back.
    // Each kind makes its own: a tuple of tag and fields, which is matched twice, keeps the compiler from making one jump
    // of reading, changing and writing a definition.
    pub fn pack(self) -> Result<ValueDataPacked, PackFault>
        ensures says { result ≡ packed self }
        ensures back { elim result [ Ok p ↦ unpacked p ≡ Ok self | Err _ ↦ Unit {0} ] }
    {
        match self {
            ValueData::Inst { ty, num, inst } => {
                ValueDataPacked::make(Tag::Inst, ty, num as u32, inst.0)
            }
            ValueData::Param { ty, num, block } => {
                ValueDataPacked::make(Tag::Param, ty, num as u32, block.0)
            }
            ValueData::Alias { ty, original } => {
                ValueDataPacked::make(Tag::Alias, ty, 0, original.0)
            }
            ValueData::Union { ty, x, y } => ValueDataPacked::make(Tag::Union, ty, x.0, y.0),
        }
    }
}
