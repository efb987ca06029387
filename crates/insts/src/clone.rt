ghost use Rattle.std.specs.Prelude.{◌≡◌, ◌<◌, ◌≤◌, [], length, take, None};
ghost use Rattle.ir.specs.Packing.{type};
ghost use Rattle.store.specs.Bank.{copied, fault_copy, fault_write, items_of};
ghost use Rattle.values.specs.Leads.{at};
ghost use Rattle.model.specs.Refusals.{first, outcome};
ghost use Rattle.model.specs.State.{call_list, result_list, results};
ghost use Rattle.model.specs.Edits.{clone_inst, clone_rows, result_types, values_full, with_results, with_words};
ghost use Rattle.defs.specs.Graphs.{Kept, graph_of, judged};
ghost use Rattle.judges.specs.States.{Unchanged, state};
ghost use Rattle.insts.specs.Renewing.{renewed};

use crate::steps::count_inst;
use defs::judges::refuse_when;
use defs::state::Defs;
use ir::entities::{Inst, Type, Value};
use ir::value_data::ValueData;
use judges::tables::same_counts;
use model::fault::GraphFault;
use table::inst_table::InstTable;
use table::room::room_for_copy;

fn judge<T: InstTable>(defs: &Defs<'_>, table: &T, inst: Inst) -> Result<(), GraphFault>
    ensures { result ≡ judged (first (clone_rows (state (graph_of defs.now) (T.meaning table.now)) inst)) }
{
    defs.known_inst(inst)?;
    same_counts(defs, table)?;
    defs.room_for_inst()?;
    room_for_copy(table, inst)?;
    let results = defs.len(defs.result_list(inst));
    defs.room_for_values(results as usize)?;
    let lengths = [
        defs.len(defs.call_list(inst, 0)),
        defs.len(defs.call_list(inst, 1)),
        results,
    ];
    defs.words.room_for(&lengths)?;
    refuse_when(results > 65536, GraphFault::Long)
}

// The type of a value that is one of the first so many; another has none.
fn type_among(defs: &Defs<'_>, count: u32, v: Value) -> Type
    ensures says { result ≡ type (at (take count (graph_of defs.now).defs) v) }
    ensures narrow { result.0 < 16384 }
{
    if v.0 >= count {
        return Type::INVALID;
    }
    defs.values.value_type(v)
}

// Each word of a list exchanged for a new result of an instruction, of the word's type. By place, since a turn writes
// the list that it reads.
fn renew_results(defs: &mut Defs<'_>, inst: Inst, list: u32)
    requires within { list < length (graph_of defs.old).words.lists }
    requires short { length (items_of (graph_of defs.old).words list) ≤ 65536 }
    requires room { values_full (graph_of defs.old) (length (items_of (graph_of defs.old).words list)) ≡ None }
    ensures holds { graph_of defs.new ≡ renewed (graph_of defs.old) inst list }
{
    let count = defs.values.count;
    for k in 0..defs.len(list) {
        let ty = type_among(defs, count, defs.words.item(list, k));
        let v = defs.define(ValueData::Inst {
            ty,
            num: k as u16,
            inst,
        });
        defs.set_word(list, k, v);
    }
}

// New results of a new instruction, of the types that another's have.
fn clone_results(defs: &mut Defs<'_>, inst: Inst, new: Inst)
    requires below { inst.0 < (graph_of defs.old).limits.insts }
    requires new { new.0 < (graph_of defs.old).limits.insts }
    requires short { length (results (graph_of defs.old) inst) ≤ 65536 }
    requires room { values_full (graph_of defs.old) (length (results (graph_of defs.old) inst)) ≡ None }
    requires fits { fault_write (graph_of defs.old).words (result_list (graph_of defs.old) new) (length (results (graph_of defs.old) inst)) ≡ None }
    ensures holds { graph_of defs.new ≡ with_results (graph_of defs.old) new (result_types (graph_of defs.old) inst) [] }
{
    let from = defs.result_list(inst);
    let to = defs.result_list(new);
    defs.copy_list(from, to);
    renew_results(defs, new, to);
}

// A call copied.
fn copy_call(defs: &mut Defs<'_>, inst: Inst, new: Inst, place: u32)
    requires below { inst.0 < (graph_of defs.old).limits.insts }
    requires new { new.0 < (graph_of defs.old).limits.insts }
    requires few { place < 2 }
    requires fits { fault_copy (graph_of defs.old).words (call_list (graph_of defs.old) inst place) (call_list (graph_of defs.old) new place) ≡ None }
    ensures holds { graph_of defs.new ≡ with_words (graph_of defs.old) (copied (graph_of defs.old).words (call_list (graph_of defs.old) inst place) (call_list (graph_of defs.old) new place)) }
{
    let from = defs.call_list(inst, place);
    let to = defs.call_list(new, place);
    defs.copy_list(from, to);
}

// A copy of an instruction, its calls with it, and new results of the types that its results have.
pub fn clone_inst<T: InstTable>(
    defs: &mut Defs<'_>,
    table: &mut T,
    inst: Inst,
) -> Result<Inst, GraphFault>
    ensures says { outcome result (state (graph_of defs.new) (T.meaning table.new)) ≡ clone_inst inst (state (graph_of defs.old) (T.meaning table.old)) }
    ensures kept { Kept result defs.old defs.new }
    ensures table { Unchanged result table.old table.new }
{
    judge(defs, table, inst)?;
    let new = table.add_copy(inst)?;
    copy_call(defs, inst, new, 0);
    copy_call(defs, inst, new, 1);
    clone_results(defs, inst, new);
    count_inst(defs);
    Ok(new)
}
