ghost use Rattle.std.specs.Prelude.{◌≡◌, ◌+◌, ◌^◌, min};
ghost use Rattle.table.specs.Table.{add_answer, copy_answer};
ghost use Rattle.table.specs.Extents.{room_answer};

use crate::extent::Extent;
use crate::fault::TableFault;
use crate::inst_table::InstTable;
use ir::entities::Inst;

const MOST: usize = 1 << 30;

impl Extent {
    // Nothing yet, and room for so many.
    pub fn new(insts: usize, operands: usize) -> Self
        ensures count { result.count ≡ 0 }
        ensures insts { result.inst_limit ≡ min insts (2 ^ 30) }
        ensures total { result.operand_total ≡ 0 }
        ensures operands { result.operand_limit ≡ min operands (2 ^ 30) }
    {
        Extent {
            count: 0,
            inst_limit: insts.min(MOST) as u32,
            operand_total: 0,
            operand_limit: operands.min(MOST) as u32,
        }
    }

    // The next instruction's number, if it and n operands still have room.
    pub fn room(self, n: usize) -> Result<Inst, TableFault>
        ensures { result ≡ room_answer self n }
    {
        if self.count == self.inst_limit {
            return Err(TableFault::Full(self.inst_limit));
        }
        if n > (self.operand_limit - self.operand_total) as usize {
            return Err(TableFault::Full(self.operand_limit));
        }
        Ok(Inst(self.count))
    }
}

// The number that an instruction of n operands would get.
pub fn room<T: InstTable>(table: &T, n: usize) -> Result<Inst, TableFault>
    ensures { result ≡ add_answer (T.meaning table.now) n }
{
    table.extent().room(n)
}

// The number that a copy of an instruction would get.
pub fn room_for_copy<T: InstTable>(table: &T, inst: Inst) -> Result<Inst, TableFault>
    ensures { result ≡ copy_answer (T.meaning table.now) inst }
{
    let n = table.operand_count(inst)?;
    room(table, n as usize)
}
