ghost use Rattle.std.specs.Prelude.{◌≡◌};
ghost use Rattle.model.specs.Refusals.{first, outcome};
ghost use Rattle.model.specs.Edits.{append_block_param, append_param_rows, attach_block_param, attach_param_rows};
ghost use Rattle.defs.specs.Graphs.{Kept, graph_of, judged};

use defs::judges::narrow_type;
use defs::state::Defs;
use ir::entities::{Block, Type, Value};
use ir::value_data::ValueData;
use model::fault::GraphFault;

fn judge(defs: &Defs<'_>, block: Block, ty: Type) -> Result<(), GraphFault>
    ensures { result ≡ judged (first (append_param_rows (graph_of defs.now) block ty)) }
{
    defs.known_block(block)?;
    narrow_type(ty)?;
    defs.room_for_values(1)?;
    defs.room_in_list(block.0)?;
    defs.room_at_end(block.0)
}

// A new parameter of a block, after its others.
pub fn append_block_param(defs: &mut Defs<'_>, block: Block, ty: Type) -> Result<Value, GraphFault>
    ensures says { outcome result (graph_of defs.new) ≡ append_block_param block ty (graph_of defs.old) }
    ensures kept { Kept result defs.old defs.new }
{
    judge(defs, block, ty)?;
    let num = defs.len(block.0) as u16;
    let v = defs.define(ValueData::Param { ty, num, block });
    defs.push_word(block.0, v);
    Ok(v)
}

fn judge_attach(defs: &Defs<'_>, block: Block, v: Value) -> Result<(), GraphFault>
    ensures { result ≡ judged (first (attach_param_rows (graph_of defs.now) block v)) }
{
    defs.known_block(block)?;
    defs.known_value(v)?;
    defs.unretired_value(v)?;
    defs.loose_value(v)?;
    defs.room_in_list(block.0)?;
    defs.room_at_end(block.0)
}

// A loose value as the next parameter of a block. It keeps its type.
pub fn attach_block_param(defs: &mut Defs<'_>, block: Block, v: Value) -> Result<(), GraphFault>
    ensures says { outcome result (graph_of defs.new) ≡ attach_block_param block v (graph_of defs.old) }
    ensures kept { Kept result defs.old defs.new }
{
    judge_attach(defs, block, v)?;
    let num = defs.len(block.0) as u16;
    let ty = defs.values.value_type(v);
    defs.redefine(v, ValueData::Param { ty, num, block });
    defs.push_word(block.0, v);
    Ok(())
}
