ghost use Rattle.std.specs.Prelude.{◌≡◌, ◌≤◌, ◌++◌, length, drop};
ghost use Rattle.model.specs.Refusals.{first};
ghost use Rattle.model.specs.Edits.{detach_block_params, detach_rows};
ghost use Rattle.defs.specs.Graphs.{Kept, graph_of, judged};
ghost use Rattle.params.specs.Places.{Untouched, with_memory};

use defs::state::Defs;
use ir::entities::{Block, Value};
use model::fault::GraphFault;

// The memory must hold the list. No list is longer than 2^30, so a memory that is too short has a 32-bit length.
fn judge(defs: &Defs<'_>, block: Block, out: &[Value]) -> Result<(), GraphFault>
    ensures { result ≡ judged (first (detach_rows (graph_of defs.now) block out.now)) }
{
    defs.known_block(block)?;
    let count = defs.len(block.0) as usize;
    if out.len() < count {
        return Err(GraphFault::Count(out.len() as u32));
    }
    Ok(())
}

// Copies a list to the start of memory that is no shorter.
fn copy_out(words: &[Value], out: &mut [Value])
    requires { length words.now ≤ length out.old }
    ensures { out.new ≡ words.now ++ drop (length words.now) out.old }
{
    out[..words.len()].copy_from_slice(words);
}

// Empties a block's list and writes what it held to the start of the caller's memory. Answers how many there were.
pub fn detach_block_params(
    defs: &mut Defs<'_>,
    block: Block,
    out: &mut [Value],
) -> Result<u32, GraphFault>
    ensures says { with_memory result out.new (graph_of defs.new) ≡ detach_block_params block out.old (graph_of defs.old) }
    ensures kept { Kept result defs.old defs.new }
    ensures memory { Untouched result out.old out.new }
{
    judge(defs, block, out)?;
    let count = defs.len(block.0);
    copy_out(defs.words.list(block.0), out);
    defs.clear_list(block.0);
    Ok(count)
}
