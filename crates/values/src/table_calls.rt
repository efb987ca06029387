// The calls on a value table. They are public for the graph above alone, which asks them nothing that it has not
// judged before.
ghost use Rattle.std.specs.Prelude.{◌≡◌, ℕ, ◌+◌, ◌<◌, ◌≤◌, min, [], ◌∷◌, ◌++◌, length, nat_le, nat_lt, slice_set};
ghost use Rattle.ir.specs.Packing.{type};
ghost use Rattle.values.specs.Defs.{definition, definitions, stored, Narrow};
ghost use Rattle.values.specs.Leads.{at, leads_to, Exists};
ghost use Rattle.values.specs.Tables.{value_data, Put};

use crate::resolve::{read, resolve};
use crate::table::ValueTable;
use ir::entities::{Type, Value};
use ir::value_data::{ValueData, ValueDataPacked};

// The fields that keep a definition, by `match` as in `resolve`. That its type fits beside the tag stays a clause: a
// struct that says so would be built and taken apart again at each call.
fn fields(data: ValueData) -> ValueDataPacked
    requires { Narrow «data» }
    ensures says { result ≡ stored «data» }
    ensures back { definition result ≡ «data» }
{
    match data.pack() {
        Ok(packed) => packed,
        Err(_) => ValueDataPacked::RETIRED,
    }
}

// Writes a definition at a place.
#[tactic(auto, using(crate::proofs::Fronts::puts))]
fn put(defs: &mut [ValueDataPacked], place: usize, data: ValueData)
    requires within { place < length defs.old }
    requires narrow { Narrow «data» }
    ensures { Put defs.old defs.new place «data» }
{
    defs[place] = fields(data);
}

// How many values there can be.
fn room(cells: usize, most: usize) -> u32
    ensures { result ≡ min (min cells most) 1073741824 }
{
    cells.min(most).min(1 << 30) as u32
}

impl<'a> ValueTable<'a> {
    // No value yet, and room for as many as the memory holds, at most `most` and 2^30.
    #[tactic(auto, unfolding(crate::specs::Fronts::listed))]
    pub fn new(defs: &'a mut [ValueDataPacked], most: usize) -> ValueTable<'a>
        ensures holds { value_data result ≡ [] }
        ensures limit { result.limit ≡ min (min (length defs.old) most) 1073741824 }
        ensures memory { result.defs.now ≡ defs.old }
    {
        let limit = room(defs.len(), most);
        ValueTable {
            defs,
            count: 0,
            limit,
        }
    }

    // Whether a value exists.
    pub fn knows(&self, v: Value) -> bool
        ensures { result ≡ nat_lt v.0 (length (value_data self.now)) }
    {
        v.0 < self.count
    }

    // Whether the table is at its limit.
    pub fn is_full(&self) -> bool
        ensures { result ≡ nat_le self.now.limit (length (value_data self.now)) }
    {
        self.count >= self.limit
    }

    // The packed definitions of the values that exist.
    #[tactic(auto, unfolding(crate::specs::Fronts::listed))]
    fn live(&self) -> &[ValueDataPacked]
        ensures { definitions result.now ≡ value_data self.now }
    {
        &self.defs[..self.count as usize]
    }

    // The definition of a value; an unknown one reads as the retired mark.
    pub fn read(&self, v: Value) -> ValueData
        ensures says { result ≡ at (value_data self.now) v }
        ensures narrow { Narrow result }
    {
        read(self.live(), v)
    }

    // The type of a value; an unknown one has none.
    pub fn value_type(&self, v: Value) -> Type
        ensures says { result ≡ type (at (value_data self.now) v) }
        ensures narrow { result.0 < 16384 }
    {
        self.read(v).ty()
    }

    // What a value leads to, or nothing where it leads nowhere.
    pub fn resolve_aliases(&self, v: Value) -> Option<Value>
        ensures { result ≡ leads_to (value_data self.now) v }
    {
        resolve(self.live(), v)
    }

    // A new value of that definition.
    pub fn make(&mut self, data: ValueData) -> Value
        requires room { length (value_data self.old) < self.old.limit }
        requires narrow { Narrow «data» }
        ensures says { result.0 ≡ length (value_data self.old) }
        ensures holds { value_data self.new ≡ value_data self.old ++ «data» ∷ [] }
        ensures limit { self.new.limit ≡ self.old.limit }
        ensures memory { self.new.defs.now ≡ slice_set self.old.defs.now result.0 (stored «data») }
    {
        let number = self.count;
        put(self.defs, number as usize, data);
        self.count = number + 1;
        Value(number)
    }

    // Another definition of a value.
    pub fn write(&mut self, v: Value, data: ValueData)
        requires known { Exists (value_data self.old) v }
        requires narrow { Narrow «data» }
        ensures holds { value_data self.new ≡ slice_set (value_data self.old) v.0 «data» }
        ensures limit { self.new.limit ≡ self.old.limit }
        ensures memory { self.new.defs.now ≡ slice_set self.old.defs.now v.0 (stored «data») }
    {
        put(self.defs, v.0 as usize, data);
    }
}
