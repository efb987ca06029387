ghost use Rattle.std.specs.Prelude.{◌≡◌};
ghost use Rattle.defs.specs.Graphs.{graph_of};
ghost use Rattle.queries.specs.Answers.{alias_answer, real_answer, resolve_answer, source, value_def_answer, value_type_answer};

use defs::state::Defs;
use ir::entities::{Type, Value};
use ir::value_data::{ValueData, ValueDef};
use model::fault::GraphFault;

// The type of a value; a retired one has none, type 0.
pub fn value_type(defs: &Defs<'_>, v: Value) -> Result<Type, GraphFault>
    ensures { result ≡ value_type_answer (graph_of defs.now) v }
{
    defs.known_value(v)?;
    Ok(defs.values.value_type(v))
}

// What a value leads to. One that leads nowhere is refused as retired.
pub fn resolve_aliases(defs: &Defs<'_>, v: Value) -> Result<Value, GraphFault>
    ensures { result ≡ resolve_answer (graph_of defs.now) v }
{
    defs.known_value(v)?;
    defs.values
        .resolve_aliases(v)
        .ok_or(GraphFault::Retired(v.0))
}

// Where a value comes from by its definition; an alias comes from nowhere itself.
pub(crate) fn source(data: ValueData) -> Option<ValueDef>
    ensures { result ≡ source «data» }
{
    match data {
        ValueData::Inst { num, inst, .. } => Some(ValueDef::Result(inst, num as u32)),
        ValueData::Param { num, block, .. } => Some(ValueDef::Param(block, num as u32)),
        ValueData::Alias { .. } => None,
        ValueData::Union { x, y, .. } => Some(ValueDef::Union(x, y)),
    }
}

// Where what a value leads to comes from.
pub fn value_def(defs: &Defs<'_>, v: Value) -> Result<ValueDef, GraphFault>
    ensures { result ≡ value_def_answer (graph_of defs.now) v }
{
    let end = resolve_aliases(defs, v)?;
    source(defs.values.read(end)).ok_or(GraphFault::Retired(v.0))
}

// Whether a value is an alias; a retired one is, of nothing. An unknown one is not.
pub fn value_is_alias(defs: &Defs<'_>, v: Value) -> bool
    ensures { result ≡ alias_answer (graph_of defs.now) v }
{
    defs.values.knows(v) && matches!(defs.values.read(v), ValueData::Alias { .. })
}

// Whether a value exists and is no alias, so not retired either.
pub fn value_is_real(defs: &Defs<'_>, v: Value) -> bool
    ensures { result ≡ real_answer (graph_of defs.now) v }
{
    defs.values.knows(v) && !matches!(defs.values.read(v), ValueData::Alias { .. })
}
