// A new graph's data, for the crate above alone.
ghost use Rattle.std.specs.Prelude.{◌≡◌, ◌-◌, ◌/◌, min, length, replicate};
ghost use Rattle.defs.specs.Graphs.{graph_of};
ghost use Rattle.defs.specs.Opening.{most_blocks, most_insts, opened};

use crate::memory::GraphMemory;
use crate::state::Defs;
use ir::entities::Value;
use ir::value_data::ValueDataPacked;
use model::labels::{Label, Start};
use store::store::Store;
use values::table::ValueTable;

// How many blocks and instructions there may be, of so many lists.
fn limits(lists: usize, blocks: u32) -> (u32, u32)
    ensures blocks { result.0 ≡ most_blocks lists blocks }
    ensures insts { result.1 ≡ most_insts lists blocks }
{
    let lists = lists.min(1 << 32);
    let block_limit = lists.min(blocks as usize).min(1 << 30);
    let inst_limit = ((lists - block_limit) / 3).min(1 << 30);
    (block_limit as u32, inst_limit as u32)
}

impl<'a> Defs<'a> {
    // No value, no block and no instruction.
    #[tactic(auto, using(crate::proofs::Words::opening))]
    pub fn new(memory: GraphMemory<'a>, blocks: u32) -> Self
        ensures { graph_of result ≡ opened memory.entry blocks }
    {
        let GraphMemory {
            values,
            labels,
            words,
            starts,
        } = memory;
        let (block_limit, inst_limit) = limits(words.heads.len(), blocks);
        let values = ValueTable::new(values, labels.len().min(starts.heads.len()));
        let words = Store::new(words);
        let starts = Store::new(starts);
        let labels = &mut labels[..values.limit as usize];
        labels.fill(None);
        Defs {
            values,
            words,
            labels,
            starts,
            blocks: 0,
            insts: 0,
            block_limit,
            inst_limit,
        }
    }
}
