//! The longest macro, packed and read back, and macros that packing refuses.
use macros::faults::{Call, Told};
use macros::parts::{Arithmetic, Comparison, Edge, Header, Operand, Operation};
use packing::{Macro, PackRefusal, pack};
use reading::file::MacroFile;
use reading::read_macro;
use std::array;
use std::test::Fail;

/// An edge whose every operand is used.
fn edge(number: u16) -> Edge {
    Edge {
        from: (number % 255) as u8,
        to: (number / 3 % 255) as u8,
        operation: Operation::Compute {
            arithmetic: Arithmetic::Remainder,
            target: (number % 15) as u8,
            left: Operand::Constant(-1 - i32::from(number)),
            right: Operand::Variable((number / 2 % 15) as u8),
        },
    }
}

fn told(source: Macro, out: &mut [u8]) -> Option<Told> {
    pack(source, out).err().map(PackRefusal::told)
}

#[test]
fn the_longest_macro_reads_back(rt: HostRuntime) -> Result<(), Fail> {
    let all: [Edge; 511] = array::from_fn(|number| edge(number as u16));
    let source = Macro {
        variables: 15,
        places: 255,
        guarded: 254,
        edges: &all,
    };
    let mut out = [0xaau8; 6140];
    let Ok(count) = pack(source, &mut out) else {
        return Err(Fail::new("refused"));
    };
    assert!(rt; count == 6136);
    assert!(rt; out[6136..6140] == [0xaa; 4]);
    let file = &out[0..6136];
    let Ok(header) = read_macro(file) else {
        return Err(Fail::new("not read"));
    };
    assert!(rt;
        header
            == Header {
                variables: 15,
                places: 255,
                guarded: 254,
                edges: 511,
            }
    );
    let Ok(opened) = MacroFile::open(file) else {
        return Err(Fail::new("not opened"));
    };
    assert!(rt; opened.edges().eq(all));
    Ok(())
}

/// An edge with a part out of range, and the bit at which it must be refused.
#[derive(Clone, Copy)]
struct Wrong {
    why: &'static str,
    edge: Edge,
    bit: usize,
}

fn set(from: u8, to: u8, target: u8, value: Operand) -> Edge {
    Edge {
        from,
        to,
        operation: Operation::Set { target, value },
    }
}

fn wrong_edges() -> [Wrong; 6] {
    let zero = Operand::Constant(0);
    [
        Wrong {
            why: "a from that is no place",
            edge: set(2, 0, 0, zero),
            bit: 128,
        },
        Wrong {
            why: "a to that is no place",
            edge: set(0, 255, 0, zero),
            bit: 136,
        },
        Wrong {
            why: "a target that is no variable",
            edge: set(0, 0, 16, zero),
            bit: 148,
        },
        Wrong {
            why: "a left that is no variable",
            edge: set(0, 0, 0, Operand::Variable(1)),
            bit: 153,
        },
        Wrong {
            why: "a right that is no variable",
            edge: Edge {
                from: 0,
                to: 0,
                operation: Operation::Test {
                    comparison: Comparison::Equal,
                    left: zero,
                    right: Operand::Variable(200),
                },
            },
            bit: 186,
        },
        Wrong {
            why: "a read into no variable",
            edge: Edge {
                from: 0,
                to: 0,
                operation: Operation::Read { target: 1 },
            },
            bit: 148,
        },
    ]
}

/// The second of two edges out of range: refused as reading would refuse it, and no byte is written.
#[test]
fn each_part_of_an_edge_is_refused(rt: HostRuntime) {
    for wrong in wrong_edges() {
        let mut out = [0xaau8; 28];
        let source = Macro {
            variables: 1,
            places: 2,
            guarded: 1,
            edges: &[set(0, 1, 0, Operand::Constant(i32::MIN)), wrong.edge],
        };
        let expected = Told {
            number: 3,
            call: Call::Pack,
            bit: Some(wrong.bit),
            edge: Some(1),
        };
        assert!(rt; told(source, &mut out) == Some(expected), "{}", wrong.why);
        assert!(rt; out == [0xaa; 28], "{}", wrong.why);
    }
}

/// A macro of no edge with a part of its header out of range, and the bit at which it must be refused.
#[derive(Clone, Copy)]
struct WrongHeader {
    why: &'static str,
    source: Macro<'static>,
    bit: usize,
}

const WRONG_HEADERS: [WrongHeader; 4] = [
    WrongHeader {
        why: "no variable",
        source: Macro {
            variables: 0,
            places: 2,
            guarded: 1,
            edges: &[],
        },
        bit: 0,
    },
    WrongHeader {
        why: "sixteen variables",
        source: Macro {
            variables: 16,
            places: 2,
            guarded: 1,
            edges: &[],
        },
        bit: 0,
    },
    WrongHeader {
        why: "no place",
        source: Macro {
            variables: 1,
            places: 0,
            guarded: 0,
            edges: &[],
        },
        bit: 4,
    },
    WrongHeader {
        why: "a guarded place that is none of the places",
        source: Macro {
            variables: 1,
            places: 2,
            guarded: 2,
            edges: &[],
        },
        bit: 12,
    },
];

fn header_fault(bit: usize) -> Option<Told> {
    Some(Told {
        number: 2,
        call: Call::Pack,
        bit: Some(bit),
        edge: None,
    })
}

#[test]
fn each_part_of_a_header_is_refused(rt: HostRuntime) {
    for wrong in WRONG_HEADERS {
        let mut out = [0xaau8; 4];
        assert!(rt;
            told(wrong.source, &mut out) == header_fault(wrong.bit),
            "{}",
            wrong.why
        );
        assert!(rt; out == [0xaa; 4], "{}", wrong.why);
    }
}

#[test]
fn more_edges_than_a_header_can_count_are_refused(rt: HostRuntime) {
    let source = Macro {
        variables: 15,
        places: 255,
        guarded: 0,
        edges: &[edge(0); 512],
    };
    assert!(rt; told(source, &mut [0u8; 8]) == header_fault(20));
}

#[test]
fn too_little_room_is_refused(rt: HostRuntime) {
    let source = Macro {
        variables: 1,
        places: 2,
        guarded: 1,
        edges: &[set(0, 1, 0, Operand::Constant(7))],
    };
    let mut out = [0xaau8; 15];
    let expected = Told {
        number: 8,
        call: Call::Pack,
        bit: None,
        edge: None,
    };
    assert!(rt; told(source, &mut out) == Some(expected));
    assert!(rt; out == [0xaa; 15]);
}
