// What blocks can be had, of freed ones and of untouched units.
ghost use Rattle.std.specs.Prelude.{◌≡◌, ℕ, ◌+◌, ◌-◌, ◌*◌, ◌^◌, ◌<◌, ◌≤◌, true, ◌||◌, nat_le, nat_lt};
ghost use Rattle.store.specs.Bank.{no_block, obtainable, obtained, stock, usable};

use crate::blocks::Blocks;
use crate::classes::{class_for, units_of};
use crate::parts::PoolFault;
use crate::sizes::SizeTable;

// The usable units of so many cells and chain words.
pub(crate) fn usable_units(cells: usize, links: usize) -> u32
    ensures { result ≡ usable cells links }
{
    (cells / 4).min(links).min(1 << 28) as u32
}

// Whether one of so many freed blocks can be had, or one of so many untouched units.
fn enough(count: u32, size: u32, left: u32) -> bool
    ensures { result ≡ (nat_lt 0 count || nat_le size left) }
{
    count > 0 || size <= left
}

impl SizeTable {
    // Whether a block of a class can be had, of the freed ones or of so many untouched units.
    #[tactic(auto, using(crate::proofs::Models::offer_size, crate::proofs::Models::offer_none, crate::proofs::Models::offer_past, crate::proofs::Stores::count_at))]
    fn offers(&self, left: u32, class: u32) -> bool
        ensures { result ≡ obtainable (stock self.now left) class }
    {
        if class == 0 {
            return true;
        }
        if class > 29 {
            return false;
        }
        enough(self.record_of(class - 1).count, units_of(class), left)
    }
}

// What blocks are taken from: the freed ones of each size, and so many untouched units.
#[derive(Clone, Copy)]
pub(crate) struct Supply {
    sizes: SizeTable,
    left: u32,
}

impl<'a, T> Blocks<'a, T> {
    // What is left to take.
    pub(crate) fn supply(&self) -> Supply
        ensures { result ≡ record { sizes = self.now.sizes; left = self.now.limit - self.now.used } }
    {
        Supply {
            sizes: self.sizes,
            left: self.limit - self.used,
        }
    }

    // Whether a block of a class can be had. One question reads the sizes where they lie: a supply is a copy of all.
    pub(crate) fn offers(&self, class: u32) -> bool
        ensures { result ≡ obtainable (stock self.now.sizes (self.now.limit - self.now.used)) class }
    {
        self.sizes.offers(self.limit - self.used, class)
    }
}

impl Supply {
    // Whether a block of a class can be had.
    pub(crate) fn offers(&self, class: u32) -> bool
        ensures { result ≡ obtainable (stock self.now.sizes self.now.left) class }
    {
        self.sizes.offers(self.left, class)
    }

    // Counts a block of a class as had.
    #[tactic(auto, using(crate::proofs::Models::obtained_none, crate::proofs::Models::had_class))]
    pub(crate) fn spend(&mut self, class: u32)
        requires { obtainable (stock self.old.sizes self.old.left) class ≡ true }
        ensures { stock self.new.sizes self.new.left ≡ obtained (stock self.old.sizes self.old.left) class }
    {
        if class == 0 {
            return;
        }
        if self.sizes.record_of(class - 1).count > 0 {
            self.sizes.pop(class - 1, 0);
        } else {
            self.left -= units_of(class);
        }
    }
}

// The refusal of a block for n items.
#[tactic(auto, using(crate::proofs::Views::units_most), unfolding(crate::specs::Bank::no_block))]
pub(crate) fn no_block(n: usize) -> PoolFault
    ensures { result ≡ no_block n }
{
    let class = class_for(n);
    if class <= 29 {
        return PoolFault::NoBlock(4 * units_of(class));
    }
    PoolFault::NoBlock(u32::try_from(n).unwrap_or(u32::MAX))
}
