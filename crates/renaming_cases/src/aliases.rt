use ir::entities::Value;
use ir::value_data::ValueDataPacked;
use renaming::aliases::AliasResolver;
use renaming::renaming::Renaming;
use std::process::Abort;
use values::resolve::resolve;

const PARAM: ValueDataPacked = ValueDataPacked {
    x: 0,
    y: 0,
    flags: 0x4005,
};

const UNION: ValueDataPacked = ValueDataPacked {
    x: 0,
    y: 1,
    flags: 0xC005,
};

const WIDE: ValueDataPacked = ValueDataPacked {
    x: 65536,
    y: 0,
    flags: 0x0005,
};

const RETIRED: ValueDataPacked = ValueDataPacked {
    x: 0,
    y: 0xFFFF_FFFF,
    flags: 0x8000,
};

fn alias(original: u32) -> ValueDataPacked {
    ValueDataPacked {
        x: 0,
        y: original,
        flags: 0x8005,
    }
}

// What value number v leads to, by both ways to ask.
fn leads(rt: &impl Abort, defs: &[ValueDataPacked], v: u32, end: Option<u32>) {
    assert_eq!(rt; resolve(defs, Value(v)).map(|end| end.0), end);
    assert_eq!(rt; AliasResolver { defs }.rename(Value(v)).0, end.unwrap_or(v));
}

// Each case is a table of its own.
#[test]
fn chains(rt: HostRuntime) {
    let defs = [alias(3), alias(0), alias(1), PARAM, UNION, alias(4)];
    leads(&rt, &defs, 0, Some(3));
    leads(&rt, &defs, 1, Some(3));
    leads(&rt, &defs, 2, Some(3));
    leads(&rt, &defs, 3, Some(3));
    leads(&rt, &defs, 4, Some(4));
    leads(&rt, &defs, 5, Some(4));
}

#[test]
fn rings(rt: HostRuntime) {
    let defs = [alias(0), alias(2), alias(3), alias(1), alias(3), PARAM];
    leads(&rt, &defs, 0, None);
    leads(&rt, &defs, 1, None);
    leads(&rt, &defs, 3, None);
    leads(&rt, &defs, 4, None);
    leads(&rt, &defs, 5, Some(5));
}

// A live alias may have type 0 or the reserved number as its original, and only both together retire it.
#[test]
fn retired(rt: HostRuntime) {
    let typeless = ValueDataPacked {
        x: 0,
        y: 5,
        flags: 0x8000,
    };
    let defs = [
        RETIRED,
        alias(0),
        alias(1),
        alias(0xFFFF_FFFF),
        typeless,
        PARAM,
    ];
    leads(&rt, &defs, 0, None);
    leads(&rt, &defs, 1, None);
    leads(&rt, &defs, 2, None);
    leads(&rt, &defs, 3, None);
    leads(&rt, &defs, 4, Some(5));
}

#[test]
fn unknown(rt: HostRuntime) {
    let defs = [alias(3), WIDE, alias(1)];
    leads(&rt, &defs, 0, None);
    leads(&rt, &defs, 1, None);
    leads(&rt, &defs, 2, None);
    leads(&rt, &defs, 3, None);
    leads(&rt, &defs, 0xFFFF_FFFF, None);
}

// The x of an alias is not looked at; a table may be empty, or just long enough for its longest way.
#[test]
fn edges(rt: HostRuntime) {
    let marked = ValueDataPacked {
        x: 7,
        y: 1,
        flags: 0xBFFF,
    };
    leads(&rt, &[], 0, None);
    leads(&rt, &[marked, PARAM], 0, Some(1));
    leads(&rt, &[alias(1), alias(2), PARAM], 0, Some(2));
}
