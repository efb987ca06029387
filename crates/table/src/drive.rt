ghost use Rattle.std.specs.Prelude.{◌≡◌, true, Decides, OnErr};
ghost use Rattle.table.specs.Calls.{answer, answers, after, after_all};

use crate::calls::{TableCall, TableReply};
use crate::fault::TableFault;
use crate::inst_table::InstTable;

// Makes one call.
pub fn apply<T: InstTable>(table: &mut T, call: TableCall<'_>) -> Result<TableReply, TableFault>
    ensures says { result ≡ answer call.entry (T.meaning table.old) }
    ensures holds { T.meaning table.new ≡ after call.entry (T.meaning table.old) }
    ensures kept { OnErr result (table.new ≡ table.old) }
{
    Ok(match call {
        TableCall::Count => TableReply::Number(table.count()),
        TableCall::InstLimit => TableReply::Number(table.inst_limit()),
        TableCall::OperandLimit => TableReply::Number(table.operand_limit()),
        TableCall::OperandTotal => TableReply::Number(table.operand_total()),
        TableCall::Opcode(inst) => TableReply::Code(table.opcode(inst)?),
        TableCall::OperandCount(inst) => TableReply::Number(table.operand_count(inst)?),
        TableCall::Operand(inst, place) => TableReply::Holds(table.operand(inst, place)?),
        TableCall::SetOperand(inst, place, value) => {
            table.set_operand(inst, place, value)?;
            TableReply::Done
        }
        TableCall::Add(opcode, operands) => TableReply::Made(table.add(opcode, operands)?),
        TableCall::AddCopy(inst) => TableReply::Made(table.add_copy(inst)?),
    })
}

// Makes one call of both tables, and says whether both gave the same answer.
fn apply_both<L: InstTable, R: InstTable>(left: &mut L, right: &mut R, call: TableCall<'_>) -> bool
    ensures says { Decides result (answer call.entry (L.meaning left.old) ≡ answer call.entry (R.meaning right.old)) }
    ensures left { L.meaning left.new ≡ after call.entry (L.meaning left.old) }
    ensures right { R.meaning right.new ≡ after call.entry (R.meaning right.old) }
{
    let one = apply(left, call);
    let other = apply(right, call);
    one == other
}

// Makes the calls, one after another, of both tables, and says whether both always gave the same answer.
// Of two tables that mean the same they always do, whatever their kinds.
pub fn answer_alike<L: InstTable, R: InstTable>(
    left: &mut L,
    right: &mut R,
    calls: &[TableCall<'_>],
) -> bool
    ensures says { Decides result (answers calls.now (L.meaning left.old) ≡ answers calls.now (R.meaning right.old)) }
    ensures left { L.meaning left.new ≡ after_all calls.now (L.meaning left.old) }
    ensures right { R.meaning right.new ≡ after_all calls.now (R.meaning right.old) }
    ensures alike { L.meaning left.old ≡ R.meaning right.old → (result ≡ true) × (L.meaning left.new ≡ R.meaning right.new) }
{
    let mut alike = true;
    for call in calls {
        alike &= apply_both(left, right, *call);
    }
    alike
}
