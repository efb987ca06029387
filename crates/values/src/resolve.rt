// Reading packed definitions, and following aliases in them. Any memory will do: what does not unpack reads as the
// retired mark, and so does a value that has no entry.
ghost use Rattle.std.specs.Prelude.{◌≡◌};
ghost use Rattle.values.specs.Defs.{definition, definitions, Narrow};
ghost use Rattle.values.specs.Leads.{at, leads_to};

use crate::kind::{Kind, kind_of};
use ir::entities::Value;
use ir::value_data::{ValueData, ValueDataPacked};

// What an entry unpacks to. Whatever its bits are, its type fits. By `match`, as the two like it: `unwrap_or` is slower
// where a definition is read, changed and written.
fn unpacked(def: ValueDataPacked) -> ValueData
    ensures says { result ≡ definition def }
    ensures narrow { Narrow result }
{
    match def.unpack() {
        Ok(data) => data,
        Err(_) => ValueData::RETIRED,
    }
}

// The entry of v.
fn entry(defs: &[ValueDataPacked], v: Value) -> ValueDataPacked
    ensures { definition result ≡ at (definitions defs.now) v }
{
    match defs.get(v.0 as usize) {
        Some(&def) => def,
        None => ValueDataPacked::RETIRED,
    }
}

// The definition of v, which can be packed again.
pub fn read(defs: &[ValueDataPacked], v: Value) -> ValueData
    ensures says { result ≡ at (definitions defs.now) v }
    ensures narrow { Narrow result }
{
    unpacked(entry(defs, v))
}

// What v leads to, or nothing where it leads nowhere. A way is shorter than its table, so that a longer walk runs in a
// ring.
#[tactic(auto, using(crate::proofs::Reading::turn, crate::proofs::Reading::spent))]
pub fn resolve(defs: &[ValueDataPacked], v: Value) -> Option<Value>
    ensures { result ≡ leads_to (definitions defs.now) v }
{
    let mut place = v;
    for _ in 0..defs.len() {
        match kind_of(entry(defs, place)) {
            Kind::Root => return Some(place),
            Kind::Link(original) => place = original,
            Kind::Gone => return None,
        }
    }
    None
}
