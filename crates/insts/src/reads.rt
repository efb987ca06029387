ghost use Rattle.std.specs.Prelude.{◌≡◌, length, nat_lt};
ghost use Rattle.defs.specs.Graphs.{graph_of};

use defs::state::Defs;
use ir::entities::{Block, Inst, Value};

pub fn num_values(defs: &Defs<'_>) -> u32
    ensures { result ≡ length (graph_of defs.now).defs }
{
    defs.values.count
}

pub fn num_blocks(defs: &Defs<'_>) -> u32
    ensures { result ≡ (graph_of defs.now).blocks }
{
    defs.blocks
}

pub fn num_insts(defs: &Defs<'_>) -> u32
    ensures { result ≡ (graph_of defs.now).insts }
{
    defs.insts
}

pub fn value_is_valid(defs: &Defs<'_>, v: Value) -> bool
    ensures { result ≡ nat_lt v.0 (length (graph_of defs.now).defs) }
{
    defs.values.knows(v)
}

pub fn block_is_valid(defs: &Defs<'_>, block: Block) -> bool
    ensures { result ≡ nat_lt block.0 (graph_of defs.now).blocks }
{
    block.0 < defs.blocks
}

pub fn inst_is_valid(defs: &Defs<'_>, inst: Inst) -> bool
    ensures { result ≡ nat_lt inst.0 (graph_of defs.now).insts }
{
    inst.0 < defs.insts
}
