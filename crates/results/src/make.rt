ghost use Rattle.std.specs.Prelude.{◌≡◌, length, nat_lt};
ghost use Rattle.store.specs.Bank.{fault_write};
ghost use Rattle.model.specs.declared.fault.GraphFault.TheVariants.{Long};
ghost use Rattle.model.specs.Refusals.{by_pool, first, outcome, when};
ghost use Rattle.model.specs.Edits.{make_inst_results, make_inst_results_rows, values_full};
ghost use Rattle.defs.specs.Graphs.{Kept, graph_of, judged};

use crate::reuse::{
    count_reused, free_values, front, known_values, named_once, narrow_types, typed_values,
    unretired_values,
};
use crate::seats::seat_results;
use defs::judges::refuse_when;
use defs::state::Defs;
use ir::entities::{Inst, Type, Value};
use model::fault::GraphFault;

fn few_results(n: usize) -> Result<(), GraphFault>
    ensures { result ≡ judged (when (nat_lt 65536 n) Long) }
{
    refuse_when(n > 65536, GraphFault::Long)
}

#[tactic(auto, using(crate::proofs::Each::counts))]
fn judge(
    defs: &Defs<'_>,
    inst: Inst,
    types: &[Type],
    reuse: &[Option<Value>],
) -> Result<(), GraphFault>
    ensures { result ≡ judged (first (make_inst_results_rows (graph_of defs.now) inst types.now reuse.now)) }
{
    let used = front(reuse, types.len());
    defs.known_inst(inst)?;
    known_values(defs, used)?;
    unretired_values(defs, used)?;
    narrow_types(types)?;
    free_values(defs, inst, used)?;
    typed_values(defs, types, reuse)?;
    named_once(used)?;
    defs.room_for_values(types.len() - count_reused(used))?;
    defs.room_anew(defs.result_list(inst), types.len())?;
    few_results(types.len())
}

// New results of an instruction, one for each type: a value to reuse, or a new one where none is named. What the list
// held before is left loose. Answers how many there are.
pub fn make_inst_results(
    defs: &mut Defs<'_>,
    inst: Inst,
    types: &[Type],
    reuse: &[Option<Value>],
) -> Result<usize, GraphFault>
    ensures says { outcome result (graph_of defs.new) ≡ make_inst_results inst types.now reuse.now (graph_of defs.old) }
    ensures kept { Kept result defs.old defs.new }
{
    judge(defs, inst, types, reuse)?;
    let list = defs.result_list(inst);
    defs.reserve_list(list, types.len());
    seat_results(defs, inst, list, types, reuse);
    Ok(types.len())
}
