ghost use Rattle.std.specs.Prelude.{◌≡◌};

use crate::blocks::Blocks;

// Numbered lists in blocks of lent cells. Between calls no block is in hand.
#[derive(Drop)]
pub struct Store<'a, T> {
    pub(crate) blocks: Blocks<'a, T>,
    ghost idle: { blocks.hand.class ≡ 0 },
}
