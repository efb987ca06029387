use ir::entities::Value;
use renaming::pairs::{Pair, Pairs};
use renaming::renaming::Renaming;
use std::process::Abort;

fn pair(from: u32, to: u32) -> Pair {
    Pair {
        from: Value(from),
        to: Value(to),
    }
}

fn renames(rt: &impl Abort, pairs: &[Pair], from: u32, to: u32) {
    assert_eq!(rt; Pairs { pairs }.rename(Value(from)).0, to);
}

#[test]
fn empty(rt: HostRuntime) {
    renames(&rt, &[], 0, 0);
    renames(&rt, &[], 0xFFFF_FFFF, 0xFFFF_FFFF);
}

// The first pair that fits is used, once: its answer is not renamed again.
#[test]
fn first_fit(rt: HostRuntime) {
    let pairs = [pair(1, 2), pair(2, 3), pair(1, 4), pair(5, 5), pair(5, 6)];
    renames(&rt, &pairs, 1, 2);
    renames(&rt, &pairs, 2, 3);
    renames(&rt, &pairs, 3, 3);
    renames(&rt, &pairs, 4, 4);
    renames(&rt, &pairs, 5, 5);
}
