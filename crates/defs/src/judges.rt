// The rows that many edits share, judged one by one, for the crates above.
ghost use Rattle.std.specs.Prelude.{◌≡◌, ◌+◌, ◌≤◌, [], ◌∷◌, length};
ghost use Rattle.ir.specs.Packing.{type};
ghost use Rattle.store.specs.Bank.{fault_push, fault_write, items_of};
ghost use Rattle.values.specs.Leads.{at};
ghost use Rattle.model.specs.Refusals.{by_pool, when};
ghost use Rattle.model.specs.State.{attached, call_list, holds, param_list, result_list};
ghost use Rattle.model.specs.Edits.{insts_full, long, retired_values, unknown_block, unknown_inst, unknown_values, values_full, wide_type};
ghost use Rattle.defs.specs.Graphs.{graph_of, judged};

use crate::state::Defs;
use ir::entities::{Block, Inst, Type, Value};
use ir::fault::PackFault;
use ir::value_data::ValueData;
use model::fault::GraphFault;

// A row that was found to hold, or not.
pub fn refuse_when(found: bool, fault: GraphFault) -> Result<(), GraphFault>
    ensures { result ≡ judged (when found fault) }
{
    if found { Err(fault) } else { Ok(()) }
}

// A type must fit beside a tag.
pub fn narrow_type(ty: Type) -> Result<(), GraphFault>
    ensures { result ≡ judged (wide_type ty) }
{
    let wide = PackFault::Wide(ty.0 as u32);
    refuse_when(ty.0 >= 16384, GraphFault::Packing(wide))
}

impl<'a> Defs<'a> {
    pub fn known_value(&self, v: Value) -> Result<(), GraphFault>
        ensures { result ≡ judged (unknown_values (graph_of self.now) (v ∷ [])) }
    {
        refuse_when(!self.values.knows(v), GraphFault::Unknown(v.0))
    }

    pub fn unretired_value(&self, v: Value) -> Result<(), GraphFault>
        ensures { result ≡ judged (retired_values (graph_of self.now) (v ∷ [])) }
    {
        refuse_when(self.values.read(v).is_retired(), GraphFault::Retired(v.0))
    }

    pub fn known_inst(&self, inst: Inst) -> Result<(), GraphFault>
        ensures { result ≡ judged (unknown_inst (graph_of self.now) inst) }
    {
        refuse_when(inst.0 >= self.insts, GraphFault::Unknown(inst.0))
    }

    pub fn known_block(&self, block: Block) -> Result<(), GraphFault>
        ensures { result ≡ judged (unknown_block (graph_of self.now) block) }
    {
        refuse_when(block.0 >= self.blocks, GraphFault::Unknown(block.0))
    }

    // Room for n values more.
    pub fn room_for_values(&self, n: usize) -> Result<(), GraphFault>
        ensures { result ≡ judged (values_full (graph_of self.now) n) }
    {
        let left = self.values.limit - self.values.count;
        refuse_when(n > left as usize, GraphFault::Full(self.values.limit))
    }

    pub fn room_for_inst(&self) -> Result<(), GraphFault>
        ensures { result ≡ judged (insts_full (graph_of self.now)) }
    {
        refuse_when(
            self.insts >= self.inst_limit,
            GraphFault::Full(self.inst_limit),
        )
    }

    // Room for one word more in a list.
    pub fn room_in_list(&self, list: u32) -> Result<(), GraphFault>
        ensures { result ≡ judged (by_pool (fault_push (graph_of self.now).words list)) }
    {
        self.words.room(list)?;
        Ok(())
    }

    // A block for n words of a list that is written anew.
    pub fn room_anew(&self, list: u32, n: usize) -> Result<(), GraphFault>
        ensures { result ≡ judged (by_pool (fault_write (graph_of self.now).words list n)) }
    {
        self.words.room_anew(list, n)?;
        Ok(())
    }

    // How many words a list has; a number that is no list's has none.
    pub fn len(&self, list: u32) -> u32
        ensures { result ≡ length (items_of (graph_of self.now).words list) }
    {
        if list as usize >= self.words.count() {
            return 0;
        }
        self.words.len(list)
    }

    // A list of results or parameters must stay within 65,536.
    pub fn room_at_end(&self, list: u32) -> Result<(), GraphFault>
        ensures { result ≡ judged (long (items_of (graph_of self.now).words list)) }
    {
        refuse_when(self.len(list) >= 65536, GraphFault::Long)
    }
}
