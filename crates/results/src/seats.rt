// Results put in their places, once they were judged.
ghost use Rattle.std.specs.Prelude.{◌≡◌, length, None, slice_index_or};
ghost use Rattle.values.specs.Defs.{Narrow};
ghost use Rattle.model.specs.Edits.{defined, values_full, with_defs};
ghost use Rattle.defs.specs.Graphs.{graph_of};
ghost use Rattle.results.specs.Seats.{Open, Seatable, seat_of, seated_in};

use defs::state::Defs;
use ir::entities::{Inst, Type, Value};
use ir::value_data::ValueData;

// The entry of a place; past the end there is none.
fn entry_at(reuse: &[Option<Value>], k: usize) -> Option<Value>
    ensures { result ≡ slice_index_or reuse.now k None }
{
    reuse.get(k).copied().flatten()
}

// The value of a place, defined as its result: the one to reuse, or a new one.
fn seat(defs: &mut Defs<'_>, entry: Option<Value>, data: ValueData) -> Value
    requires narrow { Narrow «data» }
    requires open { Open (graph_of defs.old) entry }
    ensures says { result ≡ seat_of (length (graph_of defs.old).defs) entry }
    ensures holds { graph_of defs.new ≡ with_defs (graph_of defs.old) (defined (graph_of defs.old).defs (seat_of (length (graph_of defs.old).defs) entry) «data») }
{
    match entry {
        Some(v) => {
            defs.redefine(v, data);
            v
        }
        None => defs.define(data),
    }
}

// The results of an instruction, in its list, which is empty and has a block for them.
pub(crate) fn seat_results(
    defs: &mut Defs<'_>,
    inst: Inst,
    list: u32,
    types: &[Type],
    reuse: &[Option<Value>],
)
    requires fits { Seatable (graph_of defs.old) list types.now reuse.now }
    ensures holds { graph_of defs.new ≡ seated_in (graph_of defs.old) inst list types.now reuse.now }
{
    for (k, ty) in types.iter().enumerate() {
        let v = seat(
            defs,
            entry_at(reuse, k),
            ValueData::Inst {
                ty: *ty,
                num: k as u16,
                inst,
            },
        );
        defs.push_word(list, v);
    }
}
