ghost use Rattle.std.specs.Prelude.{◌≡◌, ◌+◌, ◌^◌, ◌<◌, ◌≤◌, min, length, slice_index_or, slice_set};
ghost use Rattle.table.specs.Table.{Placed, Fits, empty, count, row as row_at, operands as operandsAt, no_value, with_operand, with_row};
ghost use Rattle.chain.specs.Links.{at, link, walked, row_of, Chained};
ghost use Rattle.chain.specs.Chain.{chain_mean, chain_bounded, Same};

use crate::cell::{ChainRow, Link};
use crate::store::Chain;
use ir::entities::{Opcode, Value};
use table::extent::Extent;
use table::storage::Storage;

impl<'a> Chain<'a> {
    // No instructions yet.
    pub fn new(rows: &'a mut [ChainRow], links: &'a mut [Link]) -> Self
        ensures { chain_mean result ≡ empty (min (length rows.old) (2 ^ 30)) (min (length links.old) (2 ^ 30)) }
    {
        let extent = Extent::new(rows.len(), links.len());
        Chain {
            rows,
            links,
            extent,
        }
    }

    fn row(&self, i: usize) -> ChainRow
        requires { i < count (chain_mean self.now) }
        ensures cell { result ≡ at self.now.rows.now i }
        ensures opcode { result.opcode ≡ (row_at (chain_mean self.now) i).opcode }
        ensures count { result.count ≡ length (operandsAt (chain_mean self.now) i) }
    {
        self.rows[i]
    }

    // The cell of an operand, found as the meaning reads it, along the links: that each cell lies behind
    // the one before is how they are filled.
    fn find(&self, i: usize, place: usize) -> usize
        requires { Placed (chain_mean self.now) i place }
        ensures place { result ≡ (at self.now.rows.now i).first + place }
        ensures used { result < self.now.extent.operand_total }
        ensures value { (link self.now.links.now result).value ≡ slice_index_or (operandsAt (chain_mean self.now) i) place no_value }
    {
        let mut at = self.row(i).first as usize;
        for _ in 0..place {
            at = self.links[at].next as usize;
        }
        at
    }

    fn set(&mut self, i: usize, place: usize, value: Value)
        requires { Placed (chain_mean self.old) i place }
        ensures { chain_mean self.new ≡ with_operand (chain_mean self.old) i place value }
    {
        let at = self.find(i, place);
        self.links[at].value = value;
    }

    // Writes the k-th cell behind the used ones.
    fn put(&mut self, k: usize, value: Value)
        requires { self.old.extent.operand_total + k < self.old.extent.operand_limit }
        ensures link { self.new.links.now ≡ slice_set self.old.links.now (self.old.extent.operand_total + k) (record { value = value; next = self.old.extent.operand_total + k + 1 }) }
        ensures same { Same self.old self.new }
    {
        let at = self.extent.operand_total as usize + k;
        self.links[at] = Link {
            value,
            next: at as u32 + 1,
        };
    }

    // Writes operands into the cells behind the used ones: one by one, since each cell names the next.
    fn fill(&mut self, operands: &[Value])
        requires { Fits (chain_mean self.old) (length operands.now) }
        ensures chained { Chained self.new.links.now self.old.extent.operand_total (length operands.now) }
        ensures holds { walked self.new.links.now (length operands.now) self.old.extent.operand_total ≡ operands.now }
        ensures same { Same self.old self.new }
    {
        for (k, value) in operands.iter().enumerate() {
            self.put(k, *value);
        }
    }

    // Writes a copy of n chained cells behind the used ones.
    // K numbers the cell that is written; which one is read, the link before says.
    fn repeat(&mut self, first: usize, n: usize)
        requires source { first + n ≤ self.old.extent.operand_total }
        requires chained { Chained self.old.links.now first n }
        requires fits { Fits (chain_mean self.old) n }
        ensures chained { Chained self.new.links.now self.old.extent.operand_total n }
        ensures holds { walked self.new.links.now n self.old.extent.operand_total ≡ walked self.old.links.now n first }
        ensures same { Same self.old self.new }
    {
        let mut from = first;
        for k in 0..n {
            let link = self.links[from];
            self.put(k, link.value);
            from = link.next as usize;
        }
    }

    // Adds a row, whose operands lie in the cells behind the used ones.
    fn push_row(&mut self, row: ChainRow)
        requires fits { Fits (chain_mean self.old) row.count }
        requires behind { row.first ≡ self.old.extent.operand_total }
        requires chained { Chained self.old.links.now row.first row.count }
        ensures { chain_mean self.new ≡ with_row (chain_mean self.old) (row_of self.old.links.now row) }
    {
        self.rows[self.extent.count as usize] = row;
        self.extent.count += 1;
        self.extent.operand_total += row.count;
    }
}

impl<'a> Storage for Chain<'a> {
    ghost meaning = { chain_mean };

    ghost bounded = { chain_bounded };

    fn extent(&self) -> Extent {
        self.extent
    }

    fn opcode_at(&self, i: usize) -> Opcode {
        self.row(i).opcode
    }

    fn count_at(&self, i: usize) -> u32 {
        self.row(i).count
    }

    fn read(&self, i: usize, place: usize) -> Value {
        self.links[self.find(i, place)].value
    }

    fn write(&mut self, i: usize, place: usize, value: Value) {
        self.set(i, place, value);
    }

    fn push(&mut self, opcode: Opcode, operands: &[Value]) {
        let first = self.extent.operand_total;
        self.fill(operands);
        self.push_row(ChainRow {
            opcode,
            count: operands.len() as u32,
            first,
        });
    }

    fn push_copy(&mut self, i: usize) {
        let source = self.row(i);
        let first = self.extent.operand_total;
        self.repeat(source.first as usize, source.count as usize);
        self.push_row(ChainRow { first, ..source });
    }
}
