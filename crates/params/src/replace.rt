ghost use Rattle.std.specs.Prelude.{◌≡◌};
ghost use Rattle.model.specs.Refusals.{outcome};
ghost use Rattle.model.specs.Edits.{replace_block_param};
ghost use Rattle.defs.specs.Graphs.{Kept, graph_of};

use defs::state::Defs;
use ir::entities::{Type, Value};
use ir::value_data::ValueData;
use judges::places::judge_replace;
use model::fault::GraphFault;

// A new parameter in the place of another, which is left loose. With `replace_result` it shares what is judged; list and
// definition are its own.
pub fn replace_block_param(defs: &mut Defs<'_>, v: Value, ty: Type) -> Result<Value, GraphFault>
    ensures says { outcome result (graph_of defs.new) ≡ replace_block_param v ty (graph_of defs.old) }
    ensures kept { Kept result defs.old defs.new }
{
    let place = defs.values.read(v).as_param();
    let (num, block) = judge_replace(defs, v, ty, place)?;
    let new = defs.define(ValueData::Param { ty, num, block });
    defs.set_word(block.0, num as u32, new);
    Ok(new)
}
