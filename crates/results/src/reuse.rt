// The rows over the values to reuse, and over the types, judged one by one.
ghost use Rattle.std.specs.Prelude.{◌≡◌, ◌≤◌, [], ◌∷◌, length, take, drop, nat_le};
ghost use Rattle.ir.specs.declared.fault.PackFault.TheVariants.{Wide};
ghost use Rattle.model.specs.declared.fault.GraphFault.TheVariants.{Packing};
ghost use Rattle.model.specs.Refusals.{first_among};
ghost use Rattle.model.specs.Edits.{among, attached_elsewhere, mistyped, of_inst, repeated, retired_values, reused, unknown_values};
ghost use Rattle.defs.specs.Graphs.{graph_of, judged};
ghost use Rattle.results.specs.Seats.{named_again};

use defs::judges::narrow_type;
use defs::state::Defs;
use ir::entities::{Inst, Type, Value};
use ir::value_data::ValueData;
use judges::each::each;
use model::fault::GraphFault;

// By `if let`, here and below: the search takes its cases, and those of a closure in `map_or` it does not.
fn known_entry(defs: &Defs<'_>, entry: Option<Value>) -> Result<(), GraphFault>
    ensures { result ≡ judged (unknown_values (graph_of defs.now) (reused (entry ∷ []))) }
{
    if let Some(v) = entry {
        defs.known_value(v)?;
    }
    Ok(())
}

fn unretired_entry(defs: &Defs<'_>, entry: Option<Value>) -> Result<(), GraphFault>
    ensures { result ≡ judged (retired_values (graph_of defs.now) (reused (entry ∷ []))) }
{
    if let Some(v) = entry {
        defs.unretired_value(v)?;
    }
    Ok(())
}

fn is_result_of(data: ValueData, inst: Inst) -> bool
    ensures { result ≡ of_inst «data» inst }
{
    data.as_result().is_some_and(|(_, of)| of == inst)
}

// A value to reuse is loose, or one of the instruction's own results.
fn free_entry(defs: &Defs<'_>, inst: Inst, entry: Option<Value>) -> Result<(), GraphFault>
    ensures { result ≡ judged (attached_elsewhere (graph_of defs.now) inst (reused (entry ∷ []))) }
{
    if let Some(v) = entry
        && defs.is_attached(v)
        && !is_result_of(defs.values.read(v), inst)
    {
        return Err(GraphFault::Attached(v.0));
    }
    Ok(())
}

fn typed_entry(defs: &Defs<'_>, ty: Type, entry: Option<Value>) -> Result<(), GraphFault>
    ensures { result ≡ judged (mistyped (graph_of defs.now) (ty ∷ []) (entry ∷ [])) }
{
    if let Some(v) = entry
        && defs.values.value_type(v) != ty
    {
        return Err(GraphFault::Types(v.0));
    }
    Ok(())
}

pub(crate) fn known_values(defs: &Defs<'_>, reuse: &[Option<Value>]) -> Result<(), GraphFault>
    ensures { result ≡ judged (unknown_values (graph_of defs.now) (reused reuse.now)) }
{
    each(reuse, |entry| known_entry(defs, entry))
}

pub(crate) fn unretired_values(defs: &Defs<'_>, reuse: &[Option<Value>]) -> Result<(), GraphFault>
    ensures { result ≡ judged (retired_values (graph_of defs.now) (reused reuse.now)) }
{
    each(reuse, |entry| unretired_entry(defs, entry))
}

pub(crate) fn free_values(
    defs: &Defs<'_>,
    inst: Inst,
    reuse: &[Option<Value>],
) -> Result<(), GraphFault>
    ensures { result ≡ judged (attached_elsewhere (graph_of defs.now) inst (reused reuse.now)) }
{
    each(reuse, |entry| free_entry(defs, inst, entry))
}

pub(crate) fn narrow_types(types: &[Type]) -> Result<(), GraphFault>
    ensures { result ≡ judged (first_among (λ t. nat_le 16384 t.0) (λ t. Packing (Wide t.0)) types.now) }
{
    each(types, narrow_type)
}

// The entries that have a place among n.
pub(crate) fn front(reuse: &[Option<Value>], n: usize) -> &[Option<Value>]
    ensures { result.now ≡ take n reuse.now }
{
    &reuse[..n.min(reuse.len())]
}

// Each value to reuse has the type of its place.
pub(crate) fn typed_values(
    defs: &Defs<'_>,
    types: &[Type],
    reuse: &[Option<Value>],
) -> Result<(), GraphFault>
    ensures { result ≡ judged (mistyped (graph_of defs.now) types.now reuse.now) }
{
    for (ty, entry) in types.iter().zip(reuse) {
        typed_entry(defs, *ty, *entry)?;
    }
    Ok(())
}

fn names(reuse: &[Option<Value>], v: Value) -> bool
    ensures { result ≡ among v (reused reuse.now) }
{
    reuse.contains(&Some(v))
}

fn unique_entry(entry: Option<Value>, later: &[Option<Value>]) -> Result<(), GraphFault>
    ensures { result ≡ judged (named_again entry later.now) }
{
    if let Some(v) = entry {
        if names(later, v) {
            return Err(GraphFault::Twice(v.0));
        }
    }
    Ok(())
}

// No value to reuse is named again. There is no memory to mark the ones seen, so each is sought behind itself.
pub(crate) fn named_once(reuse: &[Option<Value>]) -> Result<(), GraphFault>
    ensures { result ≡ judged (repeated (reused reuse.now)) }
{
    for (k, entry) in reuse.iter().enumerate() {
        unique_entry(*entry, &reuse[k + 1..])?;
    }
    Ok(())
}

#[tactic(auto, using(crate::proofs::Each::count_some))]
pub(crate) fn count_reused(reuse: &[Option<Value>]) -> usize
    ensures { result ≡ length (reused reuse.now) }
{
    reuse.iter().filter(|entry| entry.is_some()).count()
}
