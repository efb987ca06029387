ghost use Rattle.std.specs.Prelude.{◌+◌, ◌^◌, ◌≤◌, length};

use ir::entities::Value;
use ir::value_data::ValueDataPacked;

// The values that are not retired, in order: the definitions that are still to be looked at, and the number of the first.
#[derive(Clone, Copy)]
pub struct Values<'a> {
    pub(crate) rest: &'a [ValueDataPacked],
    pub(crate) number: u32,
    pub ghost few: { number + length rest.now ≤ 2 ^ 30 },
}

// The same values with where they come from. One that leads nowhere is passed over.
#[derive(Clone, Copy)]
pub struct ValuesAndDefs<'a> {
    pub(crate) values: Values<'a>,
    pub(crate) defs: &'a [ValueDataPacked],
}

// The types of a block's parameters, in order.
#[derive(Clone, Copy)]
pub struct BlockParamTypes<'a> {
    pub(crate) params: &'a [Value],
    pub(crate) defs: &'a [ValueDataPacked],
}
