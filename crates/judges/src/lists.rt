ghost use Rattle.std.specs.Prelude.{◌≡◌};
ghost use Rattle.model.specs.Edits.{retired_values, unknown_values};
ghost use Rattle.defs.specs.Graphs.{graph_of, judged};
ghost use Rattle.judges.specs.States.{unknown_blocks};

use crate::each::each;
use defs::state::Defs;
use ir::entities::{Block, Value};
use model::fault::GraphFault;

// Every value must exist.
pub fn known_values(defs: &Defs<'_>, values: &[Value]) -> Result<(), GraphFault>
    ensures { result ≡ judged (unknown_values (graph_of defs.now) values.now) }
{
    each(values, |v| defs.known_value(v))
}

// No value may be retired.
pub fn unretired_values(defs: &Defs<'_>, values: &[Value]) -> Result<(), GraphFault>
    ensures { result ≡ judged (retired_values (graph_of defs.now) values.now) }
{
    each(values, |v| defs.unretired_value(v))
}

// Every block must exist.
pub fn known_blocks(defs: &Defs<'_>, blocks: &[Block]) -> Result<(), GraphFault>
    ensures { result ≡ judged (unknown_blocks (graph_of defs.now) blocks.now) }
{
    each(blocks, |b| defs.known_block(b))
}
