// The questions before a call: what it would be refused with. They are public for crates that hold a store; a user has
// the same in each call of a pool.
#![tactic(auto, using(crate::proofs::Stores::many, crate::proofs::Stores::len_is, crate::proofs::Stores::class_of_is), unfolding(crate::specs::Bank::fault_list, crate::specs::Bank::fault_at, crate::specs::Bank::fault_block, crate::specs::Bank::fault_push, crate::specs::Bank::fault_write, crate::specs::Bank::fault_copy))]

ghost use Rattle.std.specs.Prelude.{◌≡◌, ℕ, ◌+◌, ◌-◌, ◌*◌, ◌^◌, ◌<◌, ◌≤◌, length, Ok, Err};
ghost use Rattle.store.specs.Bank.{bank, class_of, fault_at, fault_block, fault_copy, fault_for, fault_list, fault_push, fault_write, items_of, listed_units, roomy, view};
ghost use Rattle.store.specs.Units.{OneOwner, freed_units, units};
ghost use Rattle.store.specs.Faults.{judged};

use crate::classes::{class_for, units_of};
use crate::parts::PoolFault;
use crate::store::Store;
use crate::supply::no_block;

impl<'a, T: Copy> Store<'a, T> {
    // The usable cells. Blocks of lists, freed blocks and untouched cells make them up, and no four cells have two owners.
    pub fn usable_cells(&self) -> u32
        ensures whole { result ≡ 4 * (listed_units (bank self.now) + (freed_units 0 (bank self.now).free + (bank self.now).left)) }
        ensures apart { OneOwner (view self.now) }
        ensures fits { (l : ℕ) → length (items_of (bank self.now) l) ≤ 4 * units (class_of (bank self.now) l) }
    {
        4 * self.blocks.limit
    }

    // How many items a list has.
    pub fn len(&self, l: u32) -> u32
        requires within { l < length (bank self.now).lists }
        ensures { result ≡ length (items_of (bank self.now) l) }
    {
        self.blocks.heads[l as usize].len
    }

    // Whether a list exists.
    pub fn find(&self, l: u32) -> Result<(), PoolFault>
        ensures says { result ≡ judged (fault_list (bank self.now) l) }
        ensures within { elim result [ Ok _ ↦ l < length (bank self.now).lists | Err _ ↦ Unit {0} ] }
    {
        if (l as usize) < self.blocks.heads.len() {
            Ok(())
        } else {
            Err(PoolFault::Unknown(l))
        }
    }

    // Whether a list has a place.
    pub fn find_place(&self, l: u32, i: u32) -> Result<(), PoolFault>
        ensures says { result ≡ judged (fault_at (bank self.now) l i) }
        ensures within { elim result [ Ok _ ↦ (l < length (bank self.now).lists) × (i < length (items_of (bank self.now) l)) | Err _ ↦ Unit {0} ] }
    {
        self.find(l)?;
        if i >= self.len(l) {
            return Err(PoolFault::Unknown(i));
        }
        Ok(())
    }

    // Whether a list has room in its block.
    pub(crate) fn is_roomy(&self, l: u32) -> bool
        requires within { l < length (bank self.now).lists }
        ensures { result ≡ roomy (bank self.now) l }
    {
        let head = self.blocks.heads[l as usize];
        head.len < 4 * units_of(head.class)
    }

    // Whether a block for n items can be had.
    fn room_block(&self, n: usize) -> Result<(), PoolFault>
        ensures { result ≡ judged (fault_block (bank self.now) n) }
    {
        if self.blocks.offers(class_for(n)) {
            return Ok(());
        }
        Err(no_block(n))
    }

    // Whether a list can have one more item.
    pub fn room(&self, l: u32) -> Result<(), PoolFault>
        ensures { result ≡ judged (fault_push (bank self.now) l) }
    {
        self.find(l)?;
        if self.is_roomy(l) {
            return Ok(());
        }
        self.room_block(self.len(l) as usize + 1)
    }

    // Whether a list can be written anew with n items.
    pub fn room_anew(&self, l: u32, n: usize) -> Result<(), PoolFault>
        ensures { result ≡ judged (fault_write (bank self.now) l n) }
    {
        self.find(l)?;
        if class_for(n) == self.blocks.heads[l as usize].class {
            return Ok(());
        }
        self.room_block(n)
    }

    // Whether a list can be copied to another.
    pub fn room_copy(&self, from: u32, to: u32) -> Result<(), PoolFault>
        ensures { result ≡ judged (fault_copy (bank self.now) from to) }
    {
        self.find(from)?;
        self.room_anew(to, self.len(from) as usize)
    }

    // Whether blocks for lists of these lengths can all be had, each after the ones before it.
    pub fn room_for(&self, lengths: &[u32]) -> Result<(), PoolFault>
        ensures { result ≡ judged (fault_for (bank self.now) lengths.now) }
    {
        let mut supply = self.blocks.supply();
        for &n in lengths {
            let class = class_for(n as usize);
            if !supply.offers(class) {
                return Err(no_block(n as usize));
            }
            supply.spend(class);
        }
        Ok(())
    }
}
