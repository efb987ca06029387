ghost use Rattle.std.specs.Prelude.{◌≡◌, ◌≤◌, length};
ghost use Rattle.values.specs.Fronts.{listed, Canonicals};

use ir::value_data::ValueDataPacked;

// The definitions of values, packed in lent memory: one for each value, counted from 0 as values are made. Its calls
// stand in `table_calls`. The memory is lent whole, so how much of it is in use stands beside it.
#[derive(Drop)]
pub struct ValueTable<'a> {
    pub defs: &'a mut [ValueDataPacked],
    pub count: u32,
    pub limit: u32,
    pub ghost counted: { count ≤ limit },
    pub ghost limited: { limit ≤ length defs.now },
    pub ghost few: { limit ≤ 1073741824 },
    pub ghost sized: { length (listed count defs.now) ≡ count },
    pub ghost canonical: { Canonicals count defs.now },
}
