ghost use Rattle.std.specs.Prelude.{◌≡◌, ◌+◌, ◌*◌, ◌^◌, ◌≤◌, length};
ghost use Rattle.store.specs.Bank.{bank};

use ir::entities::Value;
use model::labels::{Label, Start};
use store::store::Store;
use values::table::ValueTable;

// Values with their definitions and labels, how many blocks and instructions there are, one pool of words for the lists
// of parameters, results and calls, and one of label starts.
#[derive(Drop)]
pub struct Defs<'a> {
    pub values: ValueTable<'a>,
    pub words: Store<'a, Value>,
    pub labels: &'a mut [Option<Label>],
    pub starts: Store<'a, Start>,
    pub blocks: u32,
    pub insts: u32,
    pub block_limit: u32,
    pub inst_limit: u32,
    pub ghost blocks_fit: { blocks ≤ block_limit },
    pub ghost insts_fit: { insts ≤ inst_limit },
    pub ghost blocks_small: { block_limit ≤ 2 ^ 30 },
    pub ghost insts_small: { inst_limit ≤ 2 ^ 30 },
    pub ghost lists: { (block_limit + 3 * inst_limit ≤ length (bank words).lists) × (length (bank words).lists ≤ 2 ^ 32) },
    pub ghost labels_enough: { length labels.now ≡ values.limit },
    pub ghost start_lists_enough: { values.limit ≤ length (bank starts).lists },
}
