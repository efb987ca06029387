#![tactic(auto, using(crate::proofs::Words::counts, crate::proofs::Words::holds_past))]
// The steps that edits are made of: one change of a definition or of a list each, of which nothing can fail once the
// edit was judged. They are public for the crates above alone. That a list or a place exists stays a clause: a number
// does not say of which data.
ghost use Rattle.std.specs.Prelude.{◌≡◌, ◌+◌, ◌*◌, ◌<◌, ◌≤◌, not, [], ◌∷◌, ◌++◌, length, None, slice_set};
ghost use Rattle.store.specs.Bank.{changed, cleared, copied, fault_copy, fault_push, fault_write, holding, items_of, obtained, pushed, removed_at, swap_removed_at, written};
ghost use Rattle.store.specs.Units.{smallest};
ghost use Rattle.values.specs.Defs.{Narrow};
ghost use Rattle.values.specs.Leads.{Exists};
ghost use Rattle.model.specs.State.{attached, holds, value};
ghost use Rattle.model.specs.Edits.{values_full, with_defs, with_words};
ghost use Rattle.model.specs.declared.fault.GraphFault.TheVariants.{Loose, Attached};
ghost use Rattle.model.specs.Refusals.{when};
ghost use Rattle.defs.specs.Graphs.{graph_of, judged};

use crate::judges::refuse_when;
use crate::state::Defs;
use ir::entities::Value;
use ir::value_data::ValueData;
use model::fault::GraphFault;

impl<'a> Defs<'a> {
    // A new value.
    pub fn define(&mut self, data: ValueData) -> Value
        requires narrow { Narrow «data» }
        requires room { values_full (graph_of self.old) 1 ≡ None }
        ensures says { result ≡ value (length (graph_of self.old).defs) }
        ensures holds { graph_of self.new ≡ with_defs (graph_of self.old) ((graph_of self.old).defs ++ «data» ∷ []) }
    {
        self.values.make(data)
    }

    // Another definition of a value.
    pub fn redefine(&mut self, v: Value, data: ValueData)
        requires narrow { Narrow «data» }
        requires known { Exists (graph_of self.old).defs v }
        ensures holds { graph_of self.new ≡ with_defs (graph_of self.old) (slice_set (graph_of self.old).defs v.0 «data») }
    {
        self.values.write(v, data);
    }

    // One word more in a list.
    pub fn push_word(&mut self, list: u32, word: Value)
        requires fits { fault_push (graph_of self.old).words list ≡ None }
        ensures holds { graph_of self.new ≡ with_words (graph_of self.old) (pushed (graph_of self.old).words list word) }
    {
        self.words.append(list, word);
    }

    // Another word at a place of a list.
    pub fn set_word(&mut self, list: u32, place: u32, word: Value)
        requires within { list < length (graph_of self.old).words.lists }
        requires below { place < length (items_of (graph_of self.old).words list) }
        ensures holds { graph_of self.new ≡ with_words (graph_of self.old) (changed (graph_of self.old).words list place word) }
    {
        self.words.set_item(list, place, word);
    }

    // A word taken out of a list, and the gap closed.
    pub fn remove_word(&mut self, list: u32, place: u32)
        requires within { list < length (graph_of self.old).words.lists }
        requires below { place < length (items_of (graph_of self.old).words list) }
        ensures holds { graph_of self.new ≡ with_words (graph_of self.old) (removed_at (graph_of self.old).words list place) }
    {
        self.words.remove_item(list, place);
    }

    // The last word of a list put in the place of another.
    pub fn swap_remove_word(&mut self, list: u32, place: u32)
        requires within { list < length (graph_of self.old).words.lists }
        requires below { place < length (items_of (graph_of self.old).words list) }
        ensures holds { graph_of self.new ≡ with_words (graph_of self.old) (swap_removed_at (graph_of self.old).words list place) }
    {
        self.words.swap_remove_item(list, place);
    }

    // A list emptied.
    pub fn clear_list(&mut self, list: u32)
        requires within { list < length (graph_of self.old).words.lists }
        ensures holds { graph_of self.new ≡ with_words (graph_of self.old) (cleared (graph_of self.old).words list) }
    {
        self.words.clear(list);
    }

    // A list written anew.
    pub fn write_list(&mut self, list: u32, words: &[Value])
        requires fits { fault_write (graph_of self.old).words list (length words.now) ≡ None }
        ensures holds { graph_of self.new ≡ with_words (graph_of self.old) (written (graph_of self.old).words list words.now) }
    {
        self.words.write(list, words);
    }

    // A list copied to another.
    pub fn copy_list(&mut self, from: u32, to: u32)
        requires fits { fault_copy (graph_of self.old).words from to ≡ None }
        ensures holds { graph_of self.new ≡ with_words (graph_of self.old) (copied (graph_of self.old).words from to) }
    {
        self.words.copy(from, to);
    }

    // Whether a list holds a value at a place.
    fn list_holds(&self, list: u64, place: u32, v: Value) -> bool
        ensures { result ≡ holds (items_of (graph_of self.now).words list) place v }
    {
        if list >= self.words.count() as u64 {
            return false;
        }
        if place >= self.words.len(list as u32) {
            return false;
        }
        self.words.item(list as u32, place) == v
    }

    // Whether the list of its instruction or block holds a value at its number.
    #[inline]
    pub fn is_attached(&self, v: Value) -> bool
        ensures { result ≡ attached (graph_of self.now) v }
    {
        match self.values.read(v) {
            ValueData::Inst { num, inst, .. } => self.list_holds(
                self.block_limit as u64 + 3 * inst.0 as u64,
                num as u32,
                v,
            ),
            ValueData::Param { num, block, .. } => self.list_holds(block.0 as u64, num as u32, v),
            ValueData::Alias { .. } => false,
            ValueData::Union { .. } => false,
        }
    }

    // A value must be attached.
    pub fn attached_value(&self, v: Value) -> Result<(), GraphFault>
        ensures { result ≡ judged (when (not (attached (graph_of self.now) v)) (Loose v.0)) }
    {
        refuse_when(!self.is_attached(v), GraphFault::Loose(v.0))
    }

    // A value must not be attached.
    pub fn loose_value(&self, v: Value) -> Result<(), GraphFault>
        ensures { result ≡ judged (when (attached (graph_of self.now) v) (Attached v.0)) }
    {
        refuse_when(self.is_attached(v), GraphFault::Attached(v.0))
    }

    // A list written anew, with no word yet, in the block that n words take.
    pub fn reserve_list(&mut self, list: u32, n: usize)
        requires fits { fault_write (graph_of self.old).words list n ≡ None }
        ensures holds { graph_of self.new ≡ with_words (graph_of self.old) (holding (obtained (cleared (graph_of self.old).words list) (smallest n)) list [] (smallest n)) }
    {
        self.words.reserve(list, n);
    }
}
