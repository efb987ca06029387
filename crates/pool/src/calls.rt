// Each call judges, then acts; judge and act are its own, so the calls are alike in form only.
ghost use Rattle.std.specs.Prelude.{◌≡◌, ℕ, ◌+◌, ◌-◌, ◌*◌, ◌^◌, ◌<◌, ◌≤◌, min, length, Some, None, Ok, Err, slice_index_or};
ghost use Rattle.store.specs.Bank.{bank, class_of, fault_at, fault_for, fault_list, fresh, items_of, listed_units, usable, view};
ghost use Rattle.store.specs.Units.{OneOwner, freed_units, units};
ghost use Rattle.store.specs.Faults.{judged};
ghost use Rattle.pool.specs.Calls.{Answered};
ghost use Rattle.pool.specs.Calls.Call.{push, change, remove, swap_remove, clear as empty, write as anew, copy as again};

use crate::pool::Pool;
use store::parts::{ListMemory, PoolFault};
use store::store::Store;

impl<'a, T: Copy> Pool<'a, T> {
    // Lists in lent memory, as many as there are heads and numbers; all are empty.
    pub fn new(memory: ListMemory<'a, T>) -> Self
        ensures { bank result.store ≡ fresh (min (length memory.entry.heads.now) (2 ^ 32)) (usable (length memory.entry.cells.now) (length memory.entry.chains.now)) }
    {
        Pool {
            store: Store::new(memory),
        }
    }

    // How many lists there are.
    pub fn count(&self) -> usize
        ensures { result ≡ length (bank self.now.store).lists }
    {
        self.store.count()
    }

    // How many items a list has.
    pub fn len(&self, l: u32) -> Result<u32, PoolFault>
        ensures { elim result [ Ok n ↦ (fault_list (bank self.now.store) l ≡ None) × (n ≡ length (items_of (bank self.now.store) l)) | Err f ↦ fault_list (bank self.now.store) l ≡ Some f ] }
    {
        self.store.find(l)?;
        Ok(self.store.len(l))
    }

    // The items of a list.
    pub fn list(&self, l: u32) -> Result<&[T], PoolFault>
        ensures { elim result [ Ok x ↦ (fault_list (bank self.now.store) l ≡ None) × (x.now ≡ items_of (bank self.now.store) l) | Err f ↦ fault_list (bank self.now.store) l ≡ Some f ] }
    {
        self.store.find(l)?;
        Ok(self.store.list(l))
    }

    // The item at a place of a list.
    pub fn get(&self, l: u32, i: u32) -> Result<T, PoolFault>
        ensures { elim result [ Ok x ↦ (fault_at (bank self.now.store) l i ≡ None) × (x ≡ slice_index_or (items_of (bank self.now.store) l) i x) | Err f ↦ fault_at (bank self.now.store) l i ≡ Some f ] }
    {
        self.store.find_place(l, i)?;
        Ok(self.store.item(l, i))
    }

    // Whether blocks for lists of these lengths can all be had, each after the ones before it.
    pub fn room_for(&self, lengths: &[u32]) -> Result<(), PoolFault>
        ensures { result ≡ judged (fault_for (bank self.now.store) lengths.now) }
    {
        self.store.room_for(lengths)
    }

    // Puts an item at the end of a list.
    pub fn push(&mut self, l: u32, x: T) -> Result<(), PoolFault>
        ensures { Answered (push l x) result self.old.store self.new.store }
    {
        self.store.room(l)?;
        self.store.append(l, x);
        Ok(())
    }

    // Writes the item at a place of a list.
    pub fn set(&mut self, l: u32, i: u32, x: T) -> Result<(), PoolFault>
        ensures { Answered (change l i x) result self.old.store self.new.store }
    {
        self.store.find_place(l, i)?;
        self.store.set_item(l, i, x);
        Ok(())
    }

    // Takes the item at a place out of a list and closes the gap.
    pub fn remove(&mut self, l: u32, i: u32) -> Result<(), PoolFault>
        ensures { Answered (remove l i) result self.old.store self.new.store }
    {
        self.store.find_place(l, i)?;
        self.store.remove_item(l, i);
        Ok(())
    }

    // Takes the item at a place out of a list and moves the last one into the gap.
    pub fn swap_remove(&mut self, l: u32, i: u32) -> Result<(), PoolFault>
        ensures { Answered (swap_remove l i) result self.old.store self.new.store }
    {
        self.store.find_place(l, i)?;
        self.store.swap_remove_item(l, i);
        Ok(())
    }

    // Empties a list.
    pub fn clear(&mut self, l: u32) -> Result<(), PoolFault>
        ensures { Answered (empty l) result self.old.store self.new.store }
    {
        self.store.find(l)?;
        self.store.clear(l);
        Ok(())
    }

    // Writes a list anew.
    pub fn write(&mut self, l: u32, xs: &[T]) -> Result<(), PoolFault>
        ensures { Answered (anew l xs.now) result self.old.store self.new.store }
    {
        self.store.room_anew(l, xs.len())?;
        self.store.write(l, xs);
        Ok(())
    }

    // Writes a list anew with the items of another, or of itself.
    pub fn copy(&mut self, from: u32, to: u32) -> Result<(), PoolFault>
        ensures { Answered (again from to) result self.old.store self.new.store }
    {
        self.store.room_copy(from, to)?;
        self.store.copy(from, to);
        Ok(())
    }

    // The usable cells. Blocks of lists, freed blocks and untouched cells make them up, and no four cells have two owners.
    pub fn usable(&self) -> u32
        ensures whole { result ≡ 4 * (listed_units (bank self.now.store) + (freed_units 0 (bank self.now.store).free + (bank self.now.store).left)) }
        ensures apart { OneOwner (view self.now.store) }
        ensures fits { (l : ℕ) → length (items_of (bank self.now.store) l) ≤ 4 * units (class_of (bank self.now.store) l) }
    {
        self.store.usable_cells()
    }
}
