ghost use Rattle.std.specs.Prelude.{◌≡◌, ℕ, ◌*◌};

// Where a list lies: its block's first unit of four cells, how many items it has, and the block's class.
// Class 0 is no block, and class k + 1 is a block of 4 * 2^k cells. It is a number and no Option<Size>: what a length wants
// is no block, one, or more than any, so `class_for` would answer an option of an option. Nine clauses `0 < class` would
// go, and seven functions would match where they now compare: `is_roomy`, `settle`, `rewrite`, `copy`, `offers`, `spend`
// and `no_block`.
#[derive(Clone, Copy)]
pub struct Head {
    pub(crate) start: u32,
    pub(crate) len: u32,
    pub(crate) class: u32,
}

impl Head {
    // An empty list.
    pub const EMPTY: Head = Head {
        start: 0,
        len: 0,
        class: 0,
    };

    // The first cell of the block.
    pub(crate) fn first_cell(self) -> usize
        ensures { result ≡ 4 * self.start }
    {
        4 * self.start as usize
    }
}

// The memory of numbered lists: cells, a chain word for every four of them, and a head for each list.
#[derive(Drop)]
pub struct ListMemory<'a, T> {
    pub cells: &'a mut [T],
    pub chains: &'a mut [u32],
    pub heads: &'a mut [Head],
}

// Why a pool refuses: a list number or a place that does not exist, or a block that cannot be had.
#[derive(Clone, Copy, Debug, PartialEq, Eq)]
pub enum PoolFault {
    Unknown(u32),
    NoBlock(u32),
}
