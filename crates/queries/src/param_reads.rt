ghost use Rattle.std.specs.Prelude.{◌≡◌, Ok, Err};
ghost use Rattle.defs.specs.Graphs.{graph_of};
ghost use Rattle.queries.specs.Answers.{num_params_answer, params_answer};

use defs::state::Defs;
use ir::entities::{Block, Value};
use model::fault::GraphFault;

// The parameters of a block, as they lie in the pool.
pub fn block_params<'b>(defs: &'b Defs<'_>, block: Block) -> Result<&'b [Value], GraphFault>
    ensures { elim result [ Ok vs ↦ params_answer (graph_of defs.now) block ≡ Ok vs.now | Err f ↦ params_answer (graph_of defs.now) block ≡ Err f ] }
{
    defs.known_block(block)?;
    Ok(defs.words.list(block.0))
}

// How many parameters a block has.
pub fn num_block_params(defs: &Defs<'_>, block: Block) -> Result<u32, GraphFault>
    ensures { result ≡ num_params_answer (graph_of defs.now) block }
{
    defs.known_block(block)?;
    Ok(defs.len(block.0))
}
