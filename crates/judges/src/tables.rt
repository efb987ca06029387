ghost use Rattle.std.specs.Prelude.{◌≡◌};
ghost use Rattle.model.specs.Edits.{counts_differ};
ghost use Rattle.defs.specs.Graphs.{graph_of, judged};
ghost use Rattle.judges.specs.States.{state};

use defs::judges::refuse_when;
use defs::state::Defs;
use model::fault::GraphFault;
use table::inst_table::InstTable;

// The graph and the table must have as many instructions.
pub fn same_counts<T: InstTable>(defs: &Defs<'_>, table: &T) -> Result<(), GraphFault>
    ensures { result ≡ judged (counts_differ (state (graph_of defs.now) (T.meaning table.now))) }
{
    let count = table.count();
    refuse_when(defs.insts != count, GraphFault::Count(count))
}
