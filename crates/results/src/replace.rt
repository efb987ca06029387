ghost use Rattle.std.specs.Prelude.{◌≡◌};
ghost use Rattle.model.specs.Refusals.{outcome};
ghost use Rattle.model.specs.Edits.{replace_result};
ghost use Rattle.defs.specs.Graphs.{Kept, graph_of};

use defs::state::Defs;
use ir::entities::{Type, Value};
use ir::value_data::ValueData;
use judges::places::judge_replace;
use model::fault::GraphFault;

// A new result in the place of another, which is left loose. With `replace_block_param` it shares what is judged; list and
// definition are its own.
pub fn replace_result(defs: &mut Defs<'_>, v: Value, ty: Type) -> Result<Value, GraphFault>
    ensures says { outcome result (graph_of defs.new) ≡ replace_result v ty (graph_of defs.old) }
    ensures kept { Kept result defs.old defs.new }
{
    let place = defs.values.read(v).as_result();
    let (num, inst) = judge_replace(defs, v, ty, place)?;
    let list = defs.result_list(inst);
    let new = defs.define(ValueData::Inst { ty, num, inst });
    defs.set_word(list, num as u32, new);
    Ok(new)
}
