ghost use Rattle.std.specs.Prelude.{◌≡◌, Ok, Err};
ghost use Rattle.defs.specs.Graphs.{graph_of};
ghost use Rattle.results.specs.Reads.{first_result_answer, has_results_answer, results_answer};

use defs::state::Defs;
use ir::entities::{Inst, Value};
use model::fault::GraphFault;

// The results of an instruction, as they lie in the pool.
pub fn inst_results<'b>(defs: &'b Defs<'_>, inst: Inst) -> Result<&'b [Value], GraphFault>
    ensures { elim result [ Ok vs ↦ results_answer (graph_of defs.now) inst ≡ Ok vs.now | Err f ↦ results_answer (graph_of defs.now) inst ≡ Err f ] }
{
    defs.known_inst(inst)?;
    let list = defs.result_list(inst);
    Ok(defs.words.list(list))
}

// The first result of an instruction. One that has none has no place 0, so it is refused as unknown.
pub fn first_result(defs: &Defs<'_>, inst: Inst) -> Result<Value, GraphFault>
    ensures { result ≡ first_result_answer (graph_of defs.now) inst }
{
    inst_results(defs, inst)?
        .first()
        .copied()
        .ok_or(GraphFault::Unknown(0))
}

// Whether an instruction has results; an unknown one has none.
pub fn has_results(defs: &Defs<'_>, inst: Inst) -> bool
    ensures { result ≡ has_results_answer (graph_of defs.now) inst }
{
    inst_results(defs, inst).is_ok_and(|results| !results.is_empty())
}
