ghost use Rattle.std.specs.Prelude.{◌≡◌};
ghost use Rattle.model.specs.Refusals.{outcome};
ghost use Rattle.model.specs.Edits.{clear_results};
ghost use Rattle.defs.specs.Graphs.{Kept, graph_of};

use defs::state::Defs;
use ir::entities::Inst;
use model::fault::GraphFault;

// Empties an instruction's list of results; the definitions stay.
pub fn clear_results(defs: &mut Defs<'_>, inst: Inst) -> Result<(), GraphFault>
    ensures says { outcome result (graph_of defs.new) ≡ clear_results inst (graph_of defs.old) }
    ensures kept { Kept result defs.old defs.new }
{
    defs.known_inst(inst)?;
    let list = defs.result_list(inst);
    defs.clear_list(list);
    Ok(())
}
