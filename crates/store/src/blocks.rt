ghost use Rattle.std.specs.Prelude.{length};
ghost use Rattle.store.specs.Units.{Apart, Filled, Room, Whole, placed};

use crate::parts::Head;
use crate::sizes::SizeTable;

// Blocks of lent cells and their owners: a list, the freed ones of a size, or the hand, which holds a block on its way
// between two others. The memory is lent, so its slices stand side by side, and `used` of `limit` units are in blocks.
#[derive(Drop)]
pub(crate) struct Blocks<'a, T> {
    pub(crate) cells: &'a mut [T],
    pub(crate) links: &'a mut [u32],
    pub(crate) heads: &'a mut [Head],
    pub(crate) sizes: SizeTable,
    pub(crate) hand: Head,
    pub(crate) limit: u32,
    pub(crate) used: u32,
    ghost apart: { Apart (placed hand heads.now links.now sizes.records used) },
    ghost filled: { Filled hand heads.now },
    ghost whole: { Whole (placed hand heads.now links.now sizes.records used) },
    ghost room: { Room (length cells.now) (length links.now) (length sizes.records) limit used },
}
