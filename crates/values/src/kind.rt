// What a definition is to whoever follows aliases.
ghost use Rattle.std.specs.Prelude.{◌≡◌};
ghost use Rattle.values.specs.Defs.{definition};
ghost use Rattle.values.specs.Leads.{kind};

use ir::entities::Value;
use ir::value_data::{Tag, ValueDataPacked};

#[derive(Clone, Copy)]
pub enum Kind {
    // No alias: the end of the way.
    Root,
    // A live alias: the way goes on to the original.
    Link(Value),
    // Retired, or nothing that unpacks: no way at all.
    Gone,
}

// By the flags, as each step of a way asks it: unpacking took two fifths more steps.
pub fn kind_of(def: ValueDataPacked) -> Kind
    ensures { result ≡ kind (definition def) }
{
    match def.tag() {
        Tag::Alias if def.flags == 0x8000 && def.y == 0xFFFF_FFFF => Kind::Gone,
        Tag::Alias => Kind::Link(Value(def.y)),
        Tag::Union => Kind::Root,
        _ if def.x < 65536 => Kind::Root,
        _ => Kind::Gone,
    }
}
