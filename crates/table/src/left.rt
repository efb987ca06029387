ghost use Rattle.std.specs.Prelude.{◌≡◌, ◌-◌};
ghost use Rattle.table.specs.Table.{count, total};

use crate::inst_table::InstTable;

// How many instructions can still be added. The two rooms are counted apart: either may be used up first.
pub fn insts_left<T: InstTable>(table: &T) -> u32
    ensures { result ≡ (T.meaning table.now).insts - count (T.meaning table.now) }
{
    table.inst_limit() - table.count()
}

// How many operands can still be added.
pub fn operands_left<T: InstTable>(table: &T) -> u32
    ensures { result ≡ (T.meaning table.now).words - total (T.meaning table.now).rows }
{
    table.operand_limit() - table.operand_total()
}
