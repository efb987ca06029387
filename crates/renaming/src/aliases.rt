// The renaming that follows aliases.
ghost use Rattle.renaming.specs.Renames.{end_of};
ghost use Rattle.values.specs.Defs.{definitions};

use crate::renaming::Renaming;
use ir::entities::Value;
use ir::value_data::ValueDataPacked;
use values::resolve::resolve;

// Renames each value to what it leads to in these definitions, which may be a copy of a graph's. A value that leads
// nowhere stays: an unknown or retired one, one in a ring, and an alias whose way runs into such.
#[derive(Clone, Copy)]
pub struct AliasResolver<'a> {
    pub defs: &'a [ValueDataPacked],
}

impl<'a> Renaming for AliasResolver<'a> {
    ghost renamed = { λ s v. end_of (definitions s.defs.now) v };

    fn rename(&self, v: Value) -> Value {
        resolve(self.defs, v).unwrap_or(v)
    }
}
