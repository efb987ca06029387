ghost use Rattle.std.specs.Prelude.{◌≡◌, Ok, Err};
ghost use Rattle.std.specs.Iterator.{YieldsFirst, item_count};
ghost use Rattle.values.specs.Defs.{definitions};
ghost use Rattle.defs.specs.Graphs.{graph_of};
ghost use Rattle.queries.specs.Answers.{param_types_answer};
ghost use Rattle.queries.specs.Readers.{pairs_left, source_of, types_left, unretired_from, values_left, with_sources};

use crate::param_reads::block_params;
use crate::readers::{BlockParamTypes, Values, ValuesAndDefs};
use crate::value_reads::source;
use defs::state::Defs;
use ir::entities::{Block, Type, Value};
use ir::value_data::{ValueData, ValueDataPacked, ValueDef};
use model::fault::GraphFault;
use values::resolve::{read, resolve};

impl<'a> Iterator for Values<'a> {
    type Item = Value;

    ghost next_gives = { YieldsFirst values_left };

    ghost remaining = { item_count values_left };

    fn next(&mut self) -> Option<Value> {
        while let Some((first, rest)) = self.rest.split_first() {
            let v = Value(self.number);
            let data = first.unpack().unwrap_or(ValueData::RETIRED);
            self.rest = rest;
            self.number += 1;
            if !data.is_retired() {
                return Some(v);
            }
        }
        None
    }
}

// Where what a value leads to comes from, if it leads anywhere.
fn source_of(defs: &[ValueDataPacked], v: Value) -> Option<ValueDef>
    ensures { result ≡ source_of (definitions defs.now) v }
{
    let end = resolve(defs, v)?;
    source(read(defs, end))
}

impl<'a> Iterator for ValuesAndDefs<'a> {
    type Item = (Value, ValueDef);

    ghost next_gives = { YieldsFirst pairs_left };

    ghost remaining = { item_count pairs_left };

    fn next(&mut self) -> Option<(Value, ValueDef)> {
        while let Some(v) = self.values.next() {
            if let Some(def) = source_of(self.defs, v) {
                return Some((v, def));
            }
        }
        None
    }
}

impl<'a> Iterator for BlockParamTypes<'a> {
    type Item = Type;

    ghost next_gives = { YieldsFirst types_left };

    ghost remaining = { item_count types_left };

    fn next(&mut self) -> Option<Type> {
        let (first, rest) = self.params.split_first()?;
        self.params = rest;
        Some(read(self.defs, *first).ty())
    }
}

// The packed definitions of the values that exist.
fn live<'b>(defs: &'b Defs<'_>) -> &'b [ValueDataPacked]
    ensures { definitions result.now ≡ (graph_of defs.now).defs }
{
    &defs.values.defs[..defs.values.count as usize]
}

// The values that are not retired, in order.
pub fn values<'b>(defs: &'b Defs<'_>) -> Values<'b>
    ensures { values_left result ≡ unretired_from 0 (graph_of defs.now).defs }
{
    Values {
        rest: live(defs),
        number: 0,
    }
}

// The values that are not retired, in order, with where they come from.
pub fn values_and_defs<'b>(defs: &'b Defs<'_>) -> ValuesAndDefs<'b>
    ensures { pairs_left result ≡ with_sources (graph_of defs.now).defs (unretired_from 0 (graph_of defs.now).defs) }
{
    ValuesAndDefs {
        values: values(defs),
        defs: live(defs),
    }
}

// The types of a block's parameters, in order.
pub fn block_param_types<'b>(
    defs: &'b Defs<'_>,
    block: Block,
) -> Result<BlockParamTypes<'b>, GraphFault>
    ensures { elim result [ Ok ts ↦ param_types_answer (graph_of defs.now) block ≡ Ok (types_left ts) | Err f ↦ param_types_answer (graph_of defs.now) block ≡ Err f ] }
{
    let params = block_params(defs, block)?;
    Ok(BlockParamTypes {
        params,
        defs: live(defs),
    })
}
