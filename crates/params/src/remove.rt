ghost use Rattle.std.specs.Prelude.{◌≡◌, true, None, Some, Ok, Err, OnOk, ◌+◌, ◌-◌, ◌<◌, ◌≤◌, length, drop, if◌then◌else◌, nat_lt, slice_set};
ghost use Rattle.store.specs.Bank.{items_of};
ghost use Rattle.values.specs.Defs.{Narrow};
ghost use Rattle.values.specs.Leads.{at};
ghost use Rattle.model.specs.Refusals.{first, outcome};
ghost use Rattle.model.specs.Edits.{last_of, lowered, moved, number, numbered, remove_block_param, remove_rows, swap_remove_block_param, with_defs};
ghost use Rattle.defs.specs.Graphs.{Kept, graph_of};
ghost use Rattle.ir.specs.Definitions.{param_of};
ghost use Rattle.model.specs.State.{attached};

use defs::state::Defs;
use ir::entities::{Block, Value};
use ir::value_data::ValueData;
use model::fault::GraphFault;

// The number and the block of an attached parameter.
fn judge_remove(defs: &Defs<'_>, v: Value) -> Result<(u16, Block), GraphFault>
    ensures says { elim result [ Ok p ↦ (first (remove_rows (graph_of defs.now) v) ≡ None) × (param_of (at (graph_of defs.now).defs v) ≡ Some p) | Err f ↦ first (remove_rows (graph_of defs.now) v) ≡ Some f ] }
    ensures stands { OnOk result (attached (graph_of defs.now) v ≡ true) }
{
    defs.known_value(v)?;
    defs.unretired_value(v)?;
    let place = defs.values.read(v).as_param().ok_or(GraphFault::Kind(v.0))?;
    defs.attached_value(v)?;
    Ok(place)
}

// A parameter with another number; every other definition stays.
fn numbered_as(data: ValueData, num: u16) -> ValueData
    requires { Narrow «data» }
    ensures says { result ≡ numbered num «data» }
    ensures narrow { Narrow result }
{
    match data {
        ValueData::Param { ty, block, .. } => ValueData::Param { ty, num, block },
        other => other,
    }
}

// Gives a parameter another number.
fn renumber(defs: &mut Defs<'_>, v: Value, num: u16)
    ensures holds { graph_of defs.new ≡ with_defs (graph_of defs.old) (slice_set (graph_of defs.old).defs v.0 (numbered num (at (graph_of defs.old).defs v))) }
{
    if defs.values.knows(v) {
        let data = defs.values.read(v);
        defs.redefine(v, numbered_as(data, num));
    }
}

// Lowers a parameter's number by one. It asks before it reads, and writes a parameter alone: each turn of the loop below
// then has one way from the read to the write.
fn lower(defs: &mut Defs<'_>, v: Value)
    ensures holds { graph_of defs.new ≡ with_defs (graph_of defs.old) (slice_set (graph_of defs.old).defs v.0 (numbered (number (at (graph_of defs.old).defs v) - 1) (at (graph_of defs.old).defs v))) }
{
    if defs.values.knows(v) {
        if let ValueData::Param { ty, num, block } = defs.values.read(v) {
            let num = num.saturating_sub(1);
            defs.redefine(v, ValueData::Param { ty, num, block });
        }
    }
}

// Lowers the numbers of the parameters in a list from a place on. By place: a list is not lent by one field of the
// data while another is written.
fn lower_from(defs: &mut Defs<'_>, list: u32, from: u32)
    requires within { list < length (graph_of defs.old).words.lists }
    requires place { from ≤ length (items_of (graph_of defs.old).words list) }
    ensures holds { graph_of defs.new ≡ with_defs (graph_of defs.old) (lowered (graph_of defs.old).defs (drop from (items_of (graph_of defs.old).words list))) }
{
    let count = defs.len(list);
    for place in from..count {
        let v = defs.words.item(list, place);
        lower(defs, v);
    }
}

// Takes a parameter out of its block's list; the later ones move up.
pub fn remove_block_param(defs: &mut Defs<'_>, v: Value) -> Result<(), GraphFault>
    ensures says { outcome result (graph_of defs.new) ≡ remove_block_param v (graph_of defs.old) }
    ensures kept { Kept result defs.old defs.new }
{
    let (num, block) = judge_remove(defs, v)?;
    lower_from(defs, block.0, num as u32 + 1);
    defs.remove_word(block.0, num as u32);
    Ok(())
}

// Takes a parameter out of its block's list; the last one moves into the gap. Answers the place.
pub fn swap_remove_block_param(defs: &mut Defs<'_>, v: Value) -> Result<u32, GraphFault>
    ensures says { outcome result (graph_of defs.new) ≡ swap_remove_block_param v (graph_of defs.old) }
    ensures kept { Kept result defs.old defs.new }
{
    let (num, block) = judge_remove(defs, v)?;
    move_last(defs, block.0, num);
    defs.swap_remove_word(block.0, num as u32);
    Ok(num as u32)
}

// Gives the last parameter of a list the number of the place that it is to move to.
fn move_last(defs: &mut Defs<'_>, list: u32, num: u16)
    requires within { list < length (graph_of defs.old).words.lists }
    requires place { num < length (items_of (graph_of defs.old).words list) }
    ensures holds { graph_of defs.new ≡ with_defs (graph_of defs.old) (if nat_lt (num + 1) (length (items_of (graph_of defs.old).words list)) then moved (graph_of defs.old).defs (last_of (items_of (graph_of defs.old).words list)) num else (graph_of defs.old).defs) }
{
    let last = defs.len(list) - 1;
    if (num as u32) < last {
        let v = defs.words.item(list, last);
        renumber(defs, v, num);
    }
}
