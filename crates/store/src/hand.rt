// The steps of calls. Each makes one change of ownership, with a block on its way in hand; they are the only ones that
// touch cells, chain words and size records. What the hand has to hold or to have room for stays a clause: it changes from
// step to step.
#![tactic(auto, using(crate::proofs::Stores::hand_in, crate::proofs::Stores::hand_long), unfolding(crate::specs::Held::held, crate::specs::Bank::owned))]

ghost use Rattle.std.specs.Prelude.{◌≡◌, ℕ, ◌+◌, ◌-◌, ◌*◌, ◌/◌, ◌^◌, ◌<◌, ◌≤◌, min, true, [], ◌∷◌, ◌++◌, length, take, slice_index_or, slice_set};
ghost use Rattle.std.specs.List.{remove};
ghost use Rattle.store.specs.Bank.{nothing, obtainable, swapped_out};
ghost use Rattle.store.specs.Held.{exchange, filling, freeing, grasping, held, settled, shown};
ghost use Rattle.store.specs.Units.{no_record, units};

use crate::blocks::Blocks;
use crate::cells::{fill, put, shift};
use crate::classes::units_of;
use crate::parts::Head;

impl<'a, T: Copy> Blocks<'a, T> {
    // Exchanges the hand with a list.
    pub(crate) fn swap_hand(&mut self, l: u32)
        requires within { l < length (held self.old).lists }
        ensures holds { held self.new ≡ exchange (held self.old) l }
    {
        // No proof is generated for `mem::swap` of two fields behind one reference.
        let head = self.heads[l as usize];
        self.heads[l as usize] = self.hand;
        self.hand = head;
    }

    // One more item in hand.
    pub(crate) fn append_hand(&mut self, v: T)
        requires room { length (held self.old).hand.items < 4 * units (held self.old).hand.class }
        ensures holds { held self.new ≡ filling (held self.old) ((held self.old).hand.items ++ v ∷ []) }
    {
        let at = self.hand.first_cell() + self.hand.len as usize;
        put(self.cells, at, v);
        self.hand.len += 1;
    }

    // Another item at a place in hand.
    pub(crate) fn write_hand(&mut self, i: u32, v: T)
        requires below { i < length (held self.old).hand.items }
        ensures holds { held self.new ≡ filling (held self.old) (slice_set (held self.old).hand.items i v) }
    {
        let at = self.hand.first_cell() + i as usize;
        put(self.cells, at, v);
    }

    // Other items in hand.
    pub(crate) fn fill_hand(&mut self, xs: &[T])
        requires some { 0 < (held self.old).hand.class }
        requires room { length xs.now ≤ 4 * units (held self.old).hand.class }
        ensures holds { held self.new ≡ filling (held self.old) xs.now }
    {
        fill(self.cells, self.hand.first_cell(), xs);
        self.hand.len = xs.len() as u32;
    }

    // The items of a list in hand, too.
    pub(crate) fn copy_to_hand(&mut self, l: u32)
        requires within { l < length (held self.old).lists }
        requires some { 0 < (held self.old).hand.class }
        requires room { length (slice_index_or (held self.old).lists l nothing).items ≤ 4 * units (held self.old).hand.class }
        ensures holds { held self.new ≡ filling (held self.old) (slice_index_or (held self.old).lists l nothing).items }
    {
        let head = self.heads[l as usize];
        shift(
            self.cells,
            head.first_cell(),
            head.len as usize,
            self.hand.first_cell(),
        );
        self.hand.len = head.len;
    }

    // An item taken out of the hand, and the gap closed.
    pub(crate) fn close_gap(&mut self, i: u32)
        requires below { i < length (held self.old).hand.items }
        ensures holds { held self.new ≡ filling (held self.old) (remove (held self.old).hand.items i) }
    {
        let hand = self.hand;
        let at = hand.first_cell() + i as usize;
        shift(self.cells, at + 1, (hand.len - i - 1) as usize, at);
        self.hand.len -= 1;
    }

    // One item fewer in hand.
    fn cut_hand(&mut self)
        requires some { 0 < length (held self.old).hand.items }
        ensures holds { held self.new ≡ filling (held self.old) (take (length (held self.old).hand.items - 1) (held self.old).hand.items) }
    {
        self.hand.len -= 1;
    }

    // The last item in the place of another, and one item fewer in hand.
    pub(crate) fn swap_remove_hand(&mut self, i: u32, last: T)
        requires below { i < length (held self.old).hand.items }
        requires last { last ≡ slice_index_or (held self.old).hand.items (length (held self.old).hand.items - 1) last }
        ensures holds { held self.new ≡ filling (held self.old) (swapped_out (held self.old).hand.items i) }
    {
        self.write_hand(i, last);
        self.cut_hand();
    }

    // Frees the block in hand.
    pub(crate) fn free_hand(&mut self)
        requires some { 0 < self.old.hand.class }
        ensures holds { held self.new ≡ freeing (held self.old) }
    {
        let hand = self.hand;
        let k = hand.class - 1;
        // The check asks the invariant at a write of `links`, and it does not hold between `push` and the link.
        self.sizes.record_of(k).link(self.links, hand.start);
        self.sizes.push(k, hand.start);
        self.hand = Head::EMPTY;
    }

    // Takes the first freed block of a size into the hand.
    fn take_freed(&mut self, k: u32)
        requires empty { self.old.hand.class ≡ 0 }
        requires few { k < 29 }
        requires some { 0 < (slice_index_or self.old.sizes.records k no_record).count }
        ensures holds { held self.new ≡ grasping (held self.old) (k + 1) }
    {
        let block = self.sizes.record_of(k).first;
        let next = self.links[block as usize];
        self.sizes.pop(k, next);
        self.hand = Head {
            start: block,
            len: 0,
            class: k + 1,
        };
    }

    // Takes untouched cells into the hand, as a block of a size of which none is freed.
    fn take_new(&mut self, k: u32)
        requires empty { self.old.hand.class ≡ 0 }
        requires few { k < 29 }
        requires none { (slice_index_or self.old.sizes.records k no_record).count ≤ 0 }
        requires left { 2 ^ k ≤ self.old.limit - self.old.used }
        ensures holds { held self.new ≡ grasping (held self.old) (k + 1) }
    {
        let size = units_of(k + 1);
        self.hand = Head {
            start: self.used,
            len: 0,
            class: k + 1,
        };
        self.used += size;
    }

    // Takes a block of a class that can be had into the hand.
    pub(crate) fn take_hand(&mut self, class: u32)
        requires empty { self.old.hand.class ≡ 0 }
        requires some { 0 < class }
        requires had { obtainable (shown (held self.old)) class ≡ true }
        ensures holds { held self.new ≡ grasping (held self.old) class }
    {
        let k = class - 1;
        if self.sizes.record_of(k).count > 0 {
            self.take_freed(k);
        } else {
            self.take_new(k);
        }
    }

    // Gives what is in hand to a list, and frees the block that it had.
    pub(crate) fn settle(&mut self, l: u32)
        requires within { l < length (held self.old).lists }
        ensures holds { held self.new ≡ settled (held self.old) l }
        ensures empty { self.new.hand.class ≡ 0 }
    {
        self.swap_hand(l);
        if self.hand.class > 0 {
            self.free_hand();
        }
    }
}
