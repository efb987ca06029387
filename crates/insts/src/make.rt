ghost use Rattle.std.specs.Prelude.{◌≡◌, ◌≤◌, map, length};
ghost use Rattle.store.specs.Bank.{fault_for};
ghost use Rattle.model.specs.Refusals.{by_pool, first, outcome};
ghost use Rattle.model.specs.Edits.{make_inst, make_inst_rows};
ghost use Rattle.defs.specs.Graphs.{Kept, graph_of, judged};
ghost use Rattle.judges.specs.States.{Unchanged, state};

use crate::steps::{aim, count_inst};
use defs::judges::refuse_when;
use defs::state::Defs;
use ir::entities::{Block, Inst, Opcode, Value};
use judges::lists::{known_blocks, known_values, unretired_values};
use judges::tables::same_counts;
use model::fault::GraphFault;
use table::inst_table::InstTable;
use table::room::room;

// A block of cells for each call, of which there are at most two.
fn room_for_calls(defs: &Defs<'_>, targets: &[Block]) -> Result<(), GraphFault>
    requires few { length targets.now ≤ 2 }
    ensures { result ≡ judged (by_pool (fault_for (graph_of defs.now).words (map (λ t. 1) targets.now))) }
{
    let lengths = [1, 1];
    defs.words.room_for(&lengths[0..targets.len()])?;
    Ok(())
}

fn judge<T: InstTable>(
    defs: &Defs<'_>,
    table: &T,
    operands: &[Value],
    targets: &[Block],
) -> Result<(), GraphFault>
    ensures { result ≡ judged (first (make_inst_rows (state (graph_of defs.now) (T.meaning table.now)) operands.now targets.now)) }
{
    known_values(defs, operands)?;
    known_blocks(defs, targets)?;
    unretired_values(defs, operands)?;
    same_counts(defs, table)?;
    let targets_given = u32::try_from(targets.len()).unwrap_or(u32::MAX);
    refuse_when(targets.len() > 2, GraphFault::Count(targets_given))?;
    defs.room_for_inst()?;
    room(table, operands.len())?;
    room_for_calls(defs, targets)
}

// A new instruction of that opcode and those operands, with a call of no arguments for each target.
pub fn make_inst<T: InstTable>(
    defs: &mut Defs<'_>,
    table: &mut T,
    opcode: Opcode,
    operands: &[Value],
    targets: &[Block],
) -> Result<Inst, GraphFault>
    ensures says { outcome result (state (graph_of defs.new) (T.meaning table.new)) ≡ make_inst opcode operands.now targets.now (state (graph_of defs.old) (T.meaning table.old)) }
    ensures kept { Kept result defs.old defs.new }
    ensures table { Unchanged result table.old table.new }
{
    judge(defs, table, operands, targets)?;
    let inst = table.add(opcode, operands)?;
    aim(defs, inst, targets);
    count_inst(defs);
    Ok(inst)
}
