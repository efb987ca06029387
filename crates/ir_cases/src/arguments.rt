use ir::block_arg::BlockArg;
use ir::entities::Value;
use ir::fault::{Fault, Layer, PackFault};

// An argument, and the word that holds it.
#[derive(Clone, Copy)]
struct Case {
    arg: BlockArg,
    word: u32,
}

const CASES: [Case; 9] = [
    Case {
        arg: BlockArg::Value(Value(0)),
        word: 0,
    },
    Case {
        arg: BlockArg::Value(Value(7)),
        word: 7,
    },
    Case {
        arg: BlockArg::Value(Value(1_073_741_823)),
        word: 0x3FFF_FFFF,
    },
    Case {
        arg: BlockArg::TryCallRet(0),
        word: 0x4000_0000,
    },
    Case {
        arg: BlockArg::TryCallRet(2),
        word: 0x4000_0002,
    },
    Case {
        arg: BlockArg::TryCallRet(1_073_741_823),
        word: 0x7FFF_FFFF,
    },
    Case {
        arg: BlockArg::TryCallExn(0),
        word: 0x8000_0000,
    },
    Case {
        arg: BlockArg::TryCallExn(1),
        word: 0x8000_0001,
    },
    Case {
        arg: BlockArg::TryCallExn(1_073_741_823),
        word: 0xBFFF_FFFF,
    },
];

#[test]
fn words(rt: HostRuntime) {
    for case in CASES.iter() {
        assert!(rt; case.arg.encode() == Ok(case.word));
        assert!(rt; BlockArg::decode(case.word) == Ok(case.arg));
    }
}

#[test]
fn wide_payloads(rt: HostRuntime) {
    for payload in [1_073_741_824u32, 0x7FFF_FFFF, 0x8000_0000, 0xFFFF_FFFF] {
        let wide = PackFault::Wide(payload);
        for arg in [
            BlockArg::Value(Value(payload)),
            BlockArg::TryCallRet(payload),
            BlockArg::TryCallExn(payload),
        ] {
            assert!(rt; arg.encode() == Err(wide));
        }
        assert!(rt;
            wide.number() == 3 && wide.layer() == Layer::Packing && wide.detail() == payload
        );
    }
}

#[test]
fn tag_three(rt: HostRuntime) {
    for word in [0xC000_0000u32, 0xC000_0001, 0xFFFF_FFFF] {
        let tag = PackFault::Tag(word);
        assert!(rt; BlockArg::decode(word) == Err(tag));
        assert!(rt; tag.number() == 4 && tag.layer() == Layer::Packing && tag.detail() == word);
    }
}

#[test]
fn values_among_arguments(rt: HostRuntime) {
    assert!(rt; BlockArg::Value(Value(3)).as_value() == Some(Value(3)));
    assert!(rt; BlockArg::TryCallRet(3).as_value() == None);
    assert!(rt; BlockArg::TryCallExn(3).as_value() == None);
    assert!(rt; BlockArg::from(Value(3)) == BlockArg::Value(Value(3)));
}
