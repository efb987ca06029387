ghost use Rattle.std.specs.Prelude.{◌≡◌};
ghost use Rattle.ir.specs.Packing.{retired, type};
ghost use Rattle.ir.specs.Definitions.{block_of, inst_of, param_of, place_of, result_of};

use crate::entities::{Block, Inst, Type, Value};
use crate::value_data::{ValueData, ValueDef};

impl ValueData {
    // What stands in the table once a value is gone: an alias of nothing, with no type.
    pub const RETIRED: ValueData = ValueData::Alias {
        ty: Type::INVALID,
        original: Value::RESERVED,
    };

    pub fn ty(self) -> Type
        ensures { result ≡ type self }
    {
        match self {
            ValueData::Inst { ty, .. } => ty,
            ValueData::Param { ty, .. } => ty,
            ValueData::Alias { ty, .. } => ty,
            ValueData::Union { ty, .. } => ty,
        }
    }

    // Whether this is the retired mark. By its two fields: `==` compares what other kinds hold, too.
    pub fn is_retired(self) -> bool
        ensures { result ≡ retired self }
    {
        match self {
            ValueData::Alias { ty, original } => ty.0 == 0 && original.0 == 0xFFFF_FFFF,
            _ => false,
        }
    }

    // The place and the instruction, where this is a result.
    pub fn as_result(self) -> Option<(u16, Inst)>
        ensures { result ≡ result_of self }
    {
        match self {
            ValueData::Inst { num, inst, .. } => Some((num, inst)),
            _ => None,
        }
    }

    // The place and the block, where this is a parameter.
    pub fn as_param(self) -> Option<(u16, Block)>
        ensures { result ≡ param_of self }
    {
        match self {
            ValueData::Param { num, block, .. } => Some((num, block)),
            _ => None,
        }
    }
}

impl ValueDef {
    // The instruction that a result belongs to.
    pub fn inst(self) -> Option<Inst>
        ensures { result ≡ inst_of self }
    {
        match self {
            ValueDef::Result(inst, _) => Some(inst),
            _ => None,
        }
    }

    // The block that a parameter belongs to.
    pub fn block(self) -> Option<Block>
        ensures { result ≡ block_of self }
    {
        match self {
            ValueDef::Param(block, _) => Some(block),
            _ => None,
        }
    }

    // The place among results or parameters; of a union 0.
    pub fn num(self) -> u32
        ensures { result ≡ place_of self }
    {
        match self {
            ValueDef::Result(_, n) => n,
            ValueDef::Param(_, n) => n,
            ValueDef::Union(_, _) => 0,
        }
    }
}
