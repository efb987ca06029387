use crate::calls::*;
use crate::handed_on::HandedOn;
use chain::cell::{ChainRow, Link};
use chain::store::Chain;
use ir::entities::{Inst, Opcode, Value};
use ir::fault::{Fault, Layer};
use rows::cell::RowCell;
use rows::store::Rows;
use std::process::Abort;
use table::calls::TableCall;
use table::drive::answer_alike;
use table::fault::TableFault;
use table::inst_table::InstTable;
use table::left::{insts_left, operands_left};

const V: [Value; 9] = [
    Value(10),
    Value(11),
    Value(12),
    Value(13),
    Value(14),
    Value(15),
    Value(16),
    Value(17),
    Value(18),
];

// None, one, three, four and many operands: 17 in all.
fn filled<T: InstTable>(rt: &impl Abort, table: &mut T) {
    adds(rt, table, 1, &V[0..0], 0);
    adds(rt, table, 2, &V[0..1], 1);
    adds(rt, table, 3, &V[0..3], 2);
    adds(rt, table, 4, &V[0..4], 3);
    adds(rt, table, 65535, &V[0..9], 4);
    counts(rt, table, 5, 17);
}

fn lengths<T: InstTable>(rt: &impl Abort, table: &mut T) {
    counts(rt, table, 0, 0);
    filled(rt, table);
    has(rt, table, 0, 1, &V[0..0]);
    has(rt, table, 1, 2, &V[0..1]);
    has(rt, table, 2, 3, &V[0..3]);
    has(rt, table, 3, 4, &V[0..4]);
    has(rt, table, 4, 65535, &V[0..9]);
}

// Only the operand that was set changes; a copy has its own operands.
fn settings<T: InstTable>(rt: &impl Abort, table: &mut T) {
    filled(rt, table);
    sets(rt, table, 2, 2, 70);
    sets(rt, table, 3, 0, 71);
    has(rt, table, 2, 3, &[V[0], V[1], Value(70)]);
    has(rt, table, 3, 4, &[Value(71), V[1], V[2], V[3]]);
    copies(rt, table, 2, 5);
    copies(rt, table, 3, 6);
    counts(rt, table, 7, 24);
    sets(rt, table, 5, 0, 80);
    sets(rt, table, 6, 3, 81);
    sets(rt, table, 3, 1, 82);
    has(rt, table, 2, 3, &[V[0], V[1], Value(70)]);
    has(rt, table, 3, 4, &[Value(71), Value(82), V[2], V[3]]);
    has(rt, table, 5, 3, &[Value(80), V[1], Value(70)]);
    has(rt, table, 6, 4, &[Value(71), V[1], V[2], Value(81)]);
    has(rt, table, 4, 65535, &V[0..9]);
}

fn unknown<T: InstTable>(rt: &impl Abort, table: &mut T) {
    filled(rt, table);
    assert!(rt; table.opcode(Inst(5)) == Err(TableFault::Unknown(5)));
    assert!(rt; table.operand_count(Inst(7)) == Err(TableFault::Unknown(7)));
    assert!(rt; table.operand(Inst(5), 9) == Err(TableFault::Unknown(5)));
    assert!(rt; table.operand(Inst(4), 9) == Err(TableFault::Unknown(9)));
    assert!(rt; table.set_operand(Inst(9), 3, Value(0)) == Err(TableFault::Unknown(9)));
    assert!(rt; table.set_operand(Inst(0), 0, Value(0)) == Err(TableFault::Unknown(0)));
    assert!(rt; table.set_operand(Inst(2), 3, Value(0)) == Err(TableFault::Unknown(3)));
    assert!(rt; table.add_copy(Inst(0xFFFF_FFFF)) == Err(TableFault::Unknown(0xFFFF_FFFF)));
    counts(rt, table, 5, 17);
}

// Five instructions and seventeen operands at most: no more instructions, not even an empty one.
fn full_of_insts<T: InstTable>(rt: &impl Abort, table: &mut T) {
    filled(rt, table);
    limits(rt, table, 5, 17);
    assert!(rt; table.add(Opcode(9), &[]) == Err(TableFault::Full(5)));
    assert!(rt; table.add_copy(Inst(0)) == Err(TableFault::Full(5)));
    assert!(rt; table.add_copy(Inst(5)) == Err(TableFault::Unknown(5)));
    assert!(rt; insts_left(table) == 0 && operands_left(table) == 0);
    lasts(rt, table);
}

// Short lists count as long ones do: at the operand limit only empty ones can be added.
fn full_of_operands<T: InstTable>(rt: &impl Abort, table: &mut T) {
    filled(rt, table);
    limits(rt, table, 8, 19);
    assert!(rt; table.add(Opcode(9), &V[0..3]) == Err(TableFault::Full(19)));
    assert!(rt; table.add_copy(Inst(3)) == Err(TableFault::Full(19)));
    adds(rt, table, 5, &V[0..2], 5);
    assert!(rt; table.add_copy(Inst(1)) == Err(TableFault::Full(19)));
    copies(rt, table, 0, 6);
    counts(rt, table, 7, 19);
    has(rt, table, 5, 5, &V[0..2]);
    lasts(rt, table);
}

fn lasts<T: InstTable>(rt: &impl Abort, table: &T) {
    has(rt, table, 4, 65535, &V[0..9]);
}

fn nothing<T: InstTable>(rt: &impl Abort, table: &mut T) {
    limits(rt, table, 0, 0);
    assert!(rt; table.add(Opcode(1), &[]) == Err(TableFault::Full(0)));
    assert!(rt; table.add(Opcode(1), &V[0..4]) == Err(TableFault::Full(0)));
    counts(rt, table, 0, 0);
}

fn alike<L: InstTable, R: InstTable>(rt: &impl Abort, left: &mut L, right: &mut R) {
    let calls = [
        TableCall::Add(Opcode(1), &V[0..5]),
        TableCall::Add(Opcode(2), &V[0..2]),
        TableCall::SetOperand(Inst(0), 4, Value(1)),
        TableCall::AddCopy(Inst(0)),
        TableCall::SetOperand(Inst(2), 1, Value(2)),
        TableCall::Operand(Inst(0), 1),
        TableCall::Operand(Inst(2), 4),
        TableCall::AddCopy(Inst(2)),
        TableCall::Add(Opcode(3), &V[0..9]),
        TableCall::AddCopy(Inst(9)),
        TableCall::Count,
        TableCall::OperandTotal,
    ];
    assert!(rt; answer_alike(left, right, &calls[..]));
}

fn reads(rt: &impl Abort, table: &mut Rows<'_>) {
    filled(rt, table);
    let reader = table.reader();
    assert!(rt; reader.operands(Inst(0)).is_ok_and(|none| none.is_empty()));
    assert!(rt;
        reader
            .operands(Inst(2))
            .is_ok_and(|short| short.len() == 3 && short[2] == Value(12))
    );
    assert!(rt;
        reader
            .operands(Inst(4))
            .is_ok_and(|long| long.len() == 9 && long[8] == Value(18))
    );
    assert!(rt; reader.operands(Inst(5)).is_err());
}

// Each kind takes memory of its own types, so each case is run once for either.
#[test]
fn rows_lengths(rt: HostRuntime) {
    lengths(
        &rt,
        &mut Rows::new(&mut [RowCell::EMPTY; 8], &mut [Value(0); 40]),
    );
}

#[test]
fn chain_lengths(rt: HostRuntime) {
    lengths(
        &rt,
        &mut Chain::new(&mut [ChainRow::EMPTY; 8], &mut [Link::EMPTY; 40]),
    );
}

#[test]
fn rows_settings(rt: HostRuntime) {
    settings(
        &rt,
        &mut Rows::new(&mut [RowCell::EMPTY; 8], &mut [Value(0); 40]),
    );
}

#[test]
fn chain_settings(rt: HostRuntime) {
    settings(
        &rt,
        &mut Chain::new(&mut [ChainRow::EMPTY; 8], &mut [Link::EMPTY; 40]),
    );
}

#[test]
fn rows_unknown(rt: HostRuntime) {
    unknown(
        &rt,
        &mut Rows::new(&mut [RowCell::EMPTY; 5], &mut [Value(0); 17]),
    );
}

#[test]
fn chain_unknown(rt: HostRuntime) {
    unknown(
        &rt,
        &mut Chain::new(&mut [ChainRow::EMPTY; 5], &mut [Link::EMPTY; 17]),
    );
}

#[test]
fn rows_full(rt: HostRuntime) {
    full_of_insts(
        &rt,
        &mut Rows::new(&mut [RowCell::EMPTY; 5], &mut [Value(0); 17]),
    );
    full_of_operands(
        &rt,
        &mut Rows::new(&mut [RowCell::EMPTY; 8], &mut [Value(0); 19]),
    );
    nothing(&rt, &mut Rows::new(&mut [], &mut []));
}

#[test]
fn chain_full(rt: HostRuntime) {
    full_of_insts(
        &rt,
        &mut Chain::new(&mut [ChainRow::EMPTY; 5], &mut [Link::EMPTY; 17]),
    );
    full_of_operands(
        &rt,
        &mut Chain::new(&mut [ChainRow::EMPTY; 8], &mut [Link::EMPTY; 19]),
    );
    nothing(&rt, &mut Chain::new(&mut [], &mut []));
}

#[test]
fn both_alike(rt: HostRuntime) {
    alike(
        &rt,
        &mut Rows::new(&mut [RowCell::EMPTY; 6], &mut [Value(0); 18]),
        &mut Chain::new(&mut [ChainRow::EMPTY; 6], &mut [Link::EMPTY; 18]),
    );
}

// What a table has, whatever its kind.
fn has_room(table: &dyn InstTable) -> bool {
    table.count() < table.inst_limit() && table.operand_total() < table.operand_limit()
}

// A user's own table is one like any other, and any is one behind `dyn`.
#[test]
fn own_table(rt: HostRuntime) {
    let mut rows = [RowCell::EMPTY; 6];
    let mut words = [Value(0); 18];
    let mut table = HandedOn {
        table: Rows::new(&mut rows, &mut words),
    };
    assert!(rt; has_room(&table) && table.extent().inst_limit == 6);
    alike(
        &rt,
        &mut table,
        &mut Chain::new(&mut [ChainRow::EMPTY; 6], &mut [Link::EMPTY; 18]),
    );
}

#[test]
fn reader(rt: HostRuntime) {
    reads(
        &rt,
        &mut Rows::new(&mut [RowCell::EMPTY; 5], &mut [Value(0); 17]),
    );
}

#[test]
fn refusals(rt: HostRuntime) {
    assert!(rt; TableFault::Unknown(7).number() == 1 && TableFault::Unknown(7).detail() == 7);
    assert!(rt; TableFault::Full(9).number() == 13 && TableFault::Full(9).detail() == 9);
    assert!(rt; TableFault::Full(9).layer() == Layer::Table);
}
