use ir::entities::{Block, Inst, Type, Value};
use ir::fault::PackFault;
use ir::value_data::{Tag, ValueData, ValueDataPacked, ValueDef};

// A definition, and the fields that hold it.
#[derive(Clone, Copy)]
struct Case {
    data: ValueData,
    packed: ValueDataPacked,
}

const CASES: [Case; 11] = [
    Case {
        data: ValueData::Inst {
            ty: Type(5),
            num: 2,
            inst: Inst(7),
        },
        packed: ValueDataPacked {
            x: 2,
            y: 7,
            flags: 0x0005,
        },
    },
    Case {
        data: ValueData::Param {
            ty: Type(5),
            num: 2,
            block: Block(7),
        },
        packed: ValueDataPacked {
            x: 2,
            y: 7,
            flags: 0x4005,
        },
    },
    Case {
        data: ValueData::Alias {
            ty: Type(5),
            original: Value(9),
        },
        packed: ValueDataPacked {
            x: 0,
            y: 9,
            flags: 0x8005,
        },
    },
    Case {
        data: ValueData::Union {
            ty: Type(5),
            x: Value(1),
            y: Value(2),
        },
        packed: ValueDataPacked {
            x: 1,
            y: 2,
            flags: 0xC005,
        },
    },
    Case {
        data: ValueData::RETIRED,
        packed: ValueDataPacked::RETIRED,
    },
    Case {
        data: ValueData::Alias {
            ty: Type(0),
            original: Value(0xFFFF_FFFF),
        },
        packed: ValueDataPacked {
            x: 0,
            y: 0xFFFF_FFFF,
            flags: 0x8000,
        },
    },
    Case {
        data: ValueData::Inst {
            ty: Type(0),
            num: 0,
            inst: Inst(0),
        },
        packed: ValueDataPacked {
            x: 0,
            y: 0,
            flags: 0,
        },
    },
    Case {
        data: ValueData::Inst {
            ty: Type(16383),
            num: 65535,
            inst: Inst(0xFFFF_FFFF),
        },
        packed: ValueDataPacked {
            x: 65535,
            y: 0xFFFF_FFFF,
            flags: 0x3FFF,
        },
    },
    Case {
        data: ValueData::Param {
            ty: Type(16383),
            num: 65535,
            block: Block(0xFFFF_FFFF),
        },
        packed: ValueDataPacked {
            x: 65535,
            y: 0xFFFF_FFFF,
            flags: 0x7FFF,
        },
    },
    Case {
        data: ValueData::Alias {
            ty: Type(16383),
            original: Value(0xFFFF_FFFF),
        },
        packed: ValueDataPacked {
            x: 0,
            y: 0xFFFF_FFFF,
            flags: 0xBFFF,
        },
    },
    Case {
        data: ValueData::Union {
            ty: Type(16383),
            x: Value(0xFFFF_FFFF),
            y: Value(0xFFFF_FFFF),
        },
        packed: ValueDataPacked {
            x: 0xFFFF_FFFF,
            y: 0xFFFF_FFFF,
            flags: 0xFFFF,
        },
    },
];

#[test]
fn fields(rt: HostRuntime) {
    for case in CASES.iter() {
        assert!(rt; case.data.pack() == Ok(case.packed));
        assert!(rt; case.packed.unpack() == Ok(case.data));
        assert!(rt; case.packed.ty() == case.data.ty());
    }
}

#[test]
fn wide_types(rt: HostRuntime) {
    for ty in [16384u16, 16385, 0x8000, 0xFFFF] {
        let wide = PackFault::Wide(ty as u32);
        let ty = Type(ty);
        for data in [
            ValueData::Inst {
                ty,
                num: 0,
                inst: Inst(0),
            },
            ValueData::Param {
                ty,
                num: 0,
                block: Block(0),
            },
            ValueData::Alias {
                ty,
                original: Value(0),
            },
            ValueData::Union {
                ty,
                x: Value(0),
                y: Value(0),
            },
        ] {
            assert!(rt; data.pack() == Err(wide));
        }
    }
}

// Results and parameters have a place of 16 bits; an alias ignores x, and a union's x is a value.
#[test]
fn wide_places(rt: HostRuntime) {
    for x in [65536u32, 65537, 0xFFFF_FFFF] {
        let wide = PackFault::Wide(x);
        for flags in [0x0005u16, 0x4005] {
            assert!(rt; ValueDataPacked { x, y: 0, flags }.unpack() == Err(wide));
        }
        let alias = ValueData::Alias {
            ty: Type(5),
            original: Value(9),
        };
        assert!(rt;
            ValueDataPacked {
                x,
                y: 9,
                flags: 0x8005,
            }
            .unpack()
                == Ok(alias)
        );
        let union = ValueData::Union {
            ty: Type(5),
            x: Value(x),
            y: Value(2),
        };
        assert!(rt;
            ValueDataPacked {
                x,
                y: 2,
                flags: 0xC005,
            }
            .unpack()
                == Ok(union)
        );
    }
}

#[test]
fn retired(rt: HostRuntime) {
    assert!(rt; ValueData::RETIRED.is_retired());
    for live in [
        ValueData::Alias {
            ty: Type(1),
            original: Value::RESERVED,
        },
        ValueData::Alias {
            ty: Type::INVALID,
            original: Value(0xFFFF_FFFE),
        },
        ValueData::Union {
            ty: Type::INVALID,
            x: Value::RESERVED,
            y: Value::RESERVED,
        },
        ValueData::Inst {
            ty: Type::INVALID,
            num: 0,
            inst: Inst(0xFFFF_FFFF),
        },
        ValueData::Param {
            ty: Type::INVALID,
            num: 0,
            block: Block(0xFFFF_FFFF),
        },
    ] {
        assert!(rt; !live.is_retired());
    }
}

#[test]
fn where_values_come_from(rt: HostRuntime) {
    let result = ValueDef::Result(Inst(7), 2);
    assert!(rt; result.inst() == Some(Inst(7)) && result.block() == None && result.num() == 2);
    let param = ValueDef::Param(Block(3), 1);
    assert!(rt; param.inst() == None && param.block() == Some(Block(3)) && param.num() == 1);
    let union = ValueDef::Union(Value(1), Value(2));
    assert!(rt; union.inst() == None && union.block() == None && union.num() == 0);
}

#[test]
fn results_and_parameters(rt: HostRuntime) {
    let result = CASES[0].data;
    assert!(rt; result.as_result() == Some((2, Inst(7))) && result.as_param() == None);
    let param = CASES[1].data;
    assert!(rt; param.as_result() == None && param.as_param() == Some((2, Block(7))));
    for case in &CASES[2..6] {
        assert!(rt; case.data.as_result() == None && case.data.as_param() == None);
    }
}

#[test]
fn tags(rt: HostRuntime) {
    for (case, tag) in CASES
        .iter()
        .zip([Tag::Inst, Tag::Param, Tag::Alias, Tag::Union])
    {
        assert!(rt; case.packed.tag() == tag);
    }
}
