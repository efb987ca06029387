// The steps of new instructions, of which nothing can fail once the edit was judged.
ghost use Rattle.std.specs.Prelude.{◌≡◌, ◌<◌, ◌≤◌, map, length, None};
ghost use Rattle.store.specs.Bank.{fault_for};
ghost use Rattle.model.specs.State.{call_list, result_list};
ghost use Rattle.model.specs.Edits.{aimed, insts_full, with_inst, with_words};
ghost use Rattle.defs.specs.Graphs.{graph_of};

use defs::state::Defs;
use ir::entities::{Block, Inst, Value};

// Each call's list written, its target alone.
pub(crate) fn aim(defs: &mut Defs<'_>, inst: Inst, targets: &[Block])
    requires below { inst.0 < (graph_of defs.old).limits.insts }
    requires few { length targets.now ≤ 2 }
    requires fits { fault_for (graph_of defs.old).words (map (λ t. 1) targets.now) ≡ None }
    ensures holds { graph_of defs.new ≡ with_words (graph_of defs.old) (aimed (graph_of defs.old) inst 0 targets.now (graph_of defs.old).words) }
{
    for (j, target) in targets.iter().enumerate() {
        let list = defs.call_list(inst, j as u32);
        defs.write_list(list, &[Value(target.0)]);
    }
}

// One instruction more.
pub(crate) fn count_inst(defs: &mut Defs<'_>)
    requires room { insts_full (graph_of defs.old) ≡ None }
    ensures holds { graph_of defs.new ≡ with_inst (graph_of defs.old) }
{
    defs.insts += 1;
}
