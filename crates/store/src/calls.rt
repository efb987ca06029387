// The calls of a store. They are public for crates that hold a store, which judge before they act; a user has the same,
// with nothing asked, in a pool. That a list or a place exists stays a clause: a number does not say of which store.
#![tactic(auto, unfolding(crate::specs::Bank::bank, crate::specs::Held::held))]

ghost use Rattle.std.specs.Prelude.{◌≡◌, ℕ, ◌+◌, ◌-◌, ◌*◌, ◌^◌, ◌<◌, ◌≤◌, min, true, ◌≢◌, [], ◌∷◌, ◌++◌, length, None, slice_index_or};
ghost use Rattle.std.specs.List.{remove};
ghost use Rattle.store.specs.Bank.{bank, changed, class_of, cleared, copied, fault_copy, fault_push, fault_write, fresh, grown, holding, items_of, obtainable, obtained, pushed, removed_at, roomy, swap_removed_at, swapped_out, usable, written};
ghost use Rattle.store.specs.Held.{exchange, filling, held};
ghost use Rattle.store.specs.Units.{smallest, units};

use crate::blocks::Blocks;
use crate::cells::{cell, part};
use crate::classes::class_for;
use crate::parts::{Head, ListMemory};
use crate::sizes::SizeTable;
use crate::store::Store;
use crate::supply::usable_units;

impl<'a, T: Copy> Store<'a, T> {
    // Lists in lent memory, as many as there are heads and numbers; all are empty.
    pub fn new(memory: ListMemory<'a, T>) -> Self
        ensures holds { bank result ≡ fresh (min (length memory.entry.heads.now) (2 ^ 32)) (usable (length memory.entry.cells.now) (length memory.entry.chains.now)) }
    {
        let ListMemory {
            cells,
            chains,
            heads,
        } = memory;
        let limit = usable_units(cells.len(), chains.len());
        let lists = heads.len().min(1 << 32);
        let heads = &mut heads[..lists];
        heads.fill(Head::EMPTY);
        let blocks = Blocks {
            cells,
            links: chains,
            heads,
            sizes: SizeTable::new(),
            hand: Head::EMPTY,
            limit,
            used: 0,
        };
        Store { blocks }
    }

    // How many lists there are.
    pub fn count(&self) -> usize
        ensures { result ≡ length (bank self.now).lists }
    {
        self.blocks.heads.len()
    }

    // The items of a list.
    pub fn list(&self, l: u32) -> &[T]
        requires within { l < length (bank self.now).lists }
        ensures { result.now ≡ items_of (bank self.now) l }
    {
        let head = self.blocks.heads[l as usize];
        part(self.blocks.cells, head.first_cell(), head.len as usize)
    }

    // An item of a list.
    pub fn item(&self, l: u32, i: u32) -> T
        requires within { l < length (bank self.now).lists }
        requires below { i < length (items_of (bank self.now) l) }
        ensures { result ≡ slice_index_or (items_of (bank self.now) l) i result }
    {
        let head = self.blocks.heads[l as usize];
        cell(self.blocks.cells, head.first_cell() + i as usize)
    }

    // Empties a list.
    pub fn clear(&mut self, l: u32)
        requires within { l < length (bank self.old).lists }
        ensures holds { bank self.new ≡ cleared (bank self.old) l }
    {
        self.blocks.settle(l);
    }

    // Writes an item of a list.
    #[tactic(auto, unfolding(crate::specs::Bank::bank, crate::specs::Held::held, crate::specs::Bank::changed))]
    pub fn set_item(&mut self, l: u32, i: u32, v: T)
        requires within { l < length (bank self.old).lists }
        requires below { i < length (items_of (bank self.old) l) }
        ensures holds { bank self.new ≡ changed (bank self.old) l i v }
    {
        self.change_in_hand(l, |hand| hand.write_hand(i, v));
    }

    // Takes a list into the hand for a step that changes its items alone, and gives it back.
    fn change_in_hand<F: FnOnce(&mut Blocks<'a, T>)>(&mut self, l: u32, step: F)
        requires within { l < length (bank self.old).lists }
        requires callable { (b : _) → held b.now ≡ exchange (held self.old.blocks) l → F.pre step b }
        requires keeps { (b b' : _) → held b.now ≡ exchange (held self.old.blocks) l → F.post step b tt b' → held b'.now ≡ filling (held b.now) (held b'.now).hand.items }
        ensures holds { (b b' : _) × (held b.now ≡ exchange (held self.old.blocks) l) × F.post step b tt b' × (bank self.new ≡ holding (bank self.old) l (held b'.now).hand.items (class_of (bank self.old) l)) }
    {
        self.blocks.swap_hand(l);
        step(&mut self.blocks);
        self.blocks.swap_hand(l);
    }

    // One more item in the block that a list has.
    fn append_within(&mut self, l: u32, v: T)
        requires within { l < length (bank self.old).lists }
        requires room { roomy (bank self.old) l ≡ true }
        ensures holds { bank self.new ≡ holding (bank self.old) l (items_of (bank self.old) l ++ v ∷ []) (class_of (bank self.old) l) }
    {
        self.change_in_hand(l, |hand| hand.append_hand(v));
    }

    // One more item in a list that moves to a larger block.
    fn grow(&mut self, l: u32, class: u32, v: T)
        requires within { l < length (bank self.old).lists }
        requires some { 0 < class }
        requires had { obtainable (bank self.old) class ≡ true }
        requires room { length (items_of (bank self.old) l) < 4 * units class }
        ensures holds { bank self.new ≡ holding (cleared (obtained (bank self.old) class) l) l (items_of (bank self.old) l ++ v ∷ []) class }
    {
        self.blocks.take_hand(class);
        self.blocks.copy_to_hand(l);
        self.blocks.append_hand(v);
        self.blocks.settle(l);
    }

    // Puts an item at the end of a list that can have it.
    #[tactic(auto, using(crate::proofs::Models::push_known, crate::proofs::Acts::pushed_within))]
    pub fn append(&mut self, l: u32, v: T)
        requires fits { fault_push (bank self.old) l ≡ None }
        ensures holds { bank self.new ≡ pushed (bank self.old) l v }
    {
        if self.is_roomy(l) {
            self.append_within(l, v);
        } else {
            let class = class_for(self.len(l) as usize + 1);
            self.grow(l, class, v);
        }
    }

    // Takes an item out of a list that keeps others.
    fn remove_within(&mut self, l: u32, i: u32)
        requires within { l < length (bank self.old).lists }
        requires below { i < length (items_of (bank self.old) l) }
        ensures holds { bank self.new ≡ holding (bank self.old) l (remove (items_of (bank self.old) l) i) (class_of (bank self.old) l) }
    {
        self.change_in_hand(l, |hand| hand.close_gap(i));
    }

    // Takes an item out of a list and closes the gap.
    pub fn remove_item(&mut self, l: u32, i: u32)
        requires within { l < length (bank self.old).lists }
        requires below { i < length (items_of (bank self.old) l) }
        ensures holds { bank self.new ≡ removed_at (bank self.old) l i }
    {
        if self.len(l) == 1 {
            self.blocks.settle(l);
        } else {
            self.remove_within(l, i);
        }
    }

    // Puts an item, the last one, in the place of another, and lets the last place go.
    fn swap_remove_within(&mut self, l: u32, i: u32, last: T)
        requires within { l < length (bank self.old).lists }
        requires below { i < length (items_of (bank self.old) l) }
        requires last { last ≡ slice_index_or (items_of (bank self.old) l) (length (items_of (bank self.old) l) - 1) last }
        ensures holds { bank self.new ≡ holding (bank self.old) l (swapped_out (items_of (bank self.old) l) i) (class_of (bank self.old) l) }
    {
        self.change_in_hand(l, |hand| hand.swap_remove_hand(i, last));
    }

    // Takes an item out of a list and moves the last one into the gap.
    pub fn swap_remove_item(&mut self, l: u32, i: u32)
        requires within { l < length (bank self.old).lists }
        requires below { i < length (items_of (bank self.old) l) }
        ensures holds { bank self.new ≡ swap_removed_at (bank self.old) l i }
    {
        let n = self.len(l);
        if n == 1 {
            self.blocks.settle(l);
        } else {
            let last = self.item(l, n - 1);
            self.swap_remove_within(l, i, last);
        }
    }

    // Other items in the block that a list has.
    fn overwrite(&mut self, l: u32, xs: &[T])
        requires within { l < length (bank self.old).lists }
        requires some { 0 < class_of (bank self.old) l }
        requires room { length xs.now ≤ 4 * units (class_of (bank self.old) l) }
        ensures holds { bank self.new ≡ holding (bank self.old) l xs.now (class_of (bank self.old) l) }
    {
        self.change_in_hand(l, |hand| hand.fill_hand(xs));
    }

    // Other items in a new block.
    fn replace(&mut self, l: u32, class: u32, xs: &[T])
        requires within { l < length (bank self.old).lists }
        requires some { 0 < class }
        requires had { obtainable (bank self.old) class ≡ true }
        requires room { length xs.now ≤ 4 * units class }
        ensures holds { bank self.new ≡ holding (cleared (obtained (bank self.old) class) l) l xs.now class }
    {
        self.blocks.take_hand(class);
        self.blocks.fill_hand(xs);
        self.blocks.settle(l);
    }

    // Writes a list anew, in a block of a class that holds the items.
    // Inline, so that a call that reserves, or writes a known few, pays for no more than that.
    #[inline(always)]
    fn rewrite(&mut self, l: u32, class: u32, xs: &[T])
        requires within { l < length (bank self.old).lists }
        requires had { obtainable (cleared (bank self.old) l) class ≡ true }
        requires room { length xs.now ≤ 4 * units class }
        ensures holds { bank self.new ≡ holding (obtained (cleared (bank self.old) l) class) l xs.now class }
    {
        if class == 0 {
            self.blocks.settle(l);
        } else if class == self.blocks.heads[l as usize].class {
            self.overwrite(l, xs);
        } else {
            self.replace(l, class, xs);
        }
    }

    // Writes a list anew that can have the items.
    pub fn write(&mut self, l: u32, xs: &[T])
        requires fits { fault_write (bank self.old) l (length xs.now) ≡ None }
        ensures holds { bank self.new ≡ written (bank self.old) l xs.now }
    {
        self.rewrite(l, class_for(xs.len()), xs);
    }

    // Writes a list anew, with no item yet, in the block that n items take.
    pub fn reserve(&mut self, l: u32, n: usize)
        requires fits { fault_write (bank self.old) l n ≡ None }
        ensures holds { bank self.new ≡ holding (obtained (cleared (bank self.old) l) (smallest n)) l [] (smallest n) }
    {
        self.rewrite(l, class_for(n), &[]);
    }

    // The items of another list in the block that a list has. They lie in the same cells, so `overwrite` cannot take them.
    fn copy_over(&mut self, from: u32, to: u32)
        requires known { from < length (bank self.old).lists }
        requires within { to < length (bank self.old).lists }
        requires other { from ≢ to }
        requires some { 0 < class_of (bank self.old) to }
        requires room { length (items_of (bank self.old) from) ≤ 4 * units (class_of (bank self.old) to) }
        ensures holds { bank self.new ≡ holding (bank self.old) to (items_of (bank self.old) from) (class_of (bank self.old) to) }
    {
        self.change_in_hand(to, |hand| hand.copy_to_hand(from));
    }

    // The items of a list in a new block.
    fn copy_anew(&mut self, from: u32, to: u32, class: u32)
        requires known { from < length (bank self.old).lists }
        requires within { to < length (bank self.old).lists }
        requires some { 0 < class }
        requires had { obtainable (bank self.old) class ≡ true }
        requires room { length (items_of (bank self.old) from) ≤ 4 * units class }
        ensures holds { bank self.new ≡ holding (cleared (obtained (bank self.old) class) to) to (items_of (bank self.old) from) class }
    {
        self.blocks.take_hand(class);
        self.blocks.copy_to_hand(from);
        self.blocks.settle(to);
    }

    // Writes a list anew with the items of another that it can have.
    pub fn copy(&mut self, from: u32, to: u32)
        requires fits { fault_copy (bank self.old) from to ≡ None }
        ensures holds { bank self.new ≡ copied (bank self.old) from to }
    {
        let class = class_for(self.len(from) as usize);
        if class == 0 {
            self.blocks.settle(to);
        } else if class != self.blocks.heads[to as usize].class {
            self.copy_anew(from, to, class);
        } else if from != to {
            self.copy_over(from, to);
        }
    }
}
