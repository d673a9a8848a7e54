//! Macro A, changed in one field after the other, and cut short or made longer.
use macros::faults::{Call, Told};
use macros::parts::{Comparison, Edge, Header, Operand, Operation};
use reading::file::MacroFile;
use reading::{ReadRefusal, read, read_macro};
use std::test::Fail;

const MACRO_A: [u8; 16] = [
    0x10, 0x20, 0x10, 0x08, 0x00, 0x01, 0x80, 0x80, 0, 0, 0, 0, 0, 0, 0, 0,
];

/// Bytes of macro A given other values, each at its number, and the refusal that this must bring.
#[derive(Clone, Copy)]
struct Change {
    why: &'static str,
    bytes: &'static [(usize, u8)],
    number: u8,
    bit: usize,
}

const CHANGES: [Change; 17] = [
    Change {
        why: "no variable",
        bytes: &[(0, 0x00)],
        number: 2,
        bit: 0,
    },
    Change {
        why: "no place",
        bytes: &[(1, 0x00)],
        number: 2,
        bit: 4,
    },
    Change {
        why: "a guarded place that is none of the places",
        bytes: &[(2, 0x20)],
        number: 2,
        bit: 12,
    },
    Change {
        why: "filling of the header",
        bytes: &[(3, 0x09)],
        number: 2,
        bit: 29,
    },
    Change {
        why: "two edges in the header, and the bytes of one",
        bytes: &[(3, 0x10)],
        number: 1,
        bit: 0,
    },
    Change {
        why: "a from that is no place",
        bytes: &[(4, 0x02)],
        number: 3,
        bit: 32,
    },
    Change {
        why: "a to that is no place",
        bytes: &[(5, 0x02)],
        number: 3,
        bit: 40,
    },
    Change {
        why: "a form above 11",
        bytes: &[(6, 0xc0)],
        number: 3,
        bit: 48,
    },
    Change {
        why: "a target in a test",
        bytes: &[(6, 0x81)],
        number: 3,
        bit: 52,
    },
    Change {
        why: "a target that is no variable",
        bytes: &[(6, 0x01)],
        number: 3,
        bit: 52,
    },
    Change {
        why: "a left mark in a read",
        bytes: &[(6, 0x50)],
        number: 3,
        bit: 56,
    },
    Change {
        why: "a left number in a read",
        bytes: &[(6, 0x50), (7, 0x40)],
        number: 3,
        bit: 57,
    },
    Change {
        why: "a left that is no variable",
        bytes: &[(11, 0x80)],
        number: 3,
        bit: 57,
    },
    Change {
        why: "a right mark in a set",
        bytes: &[(6, 0x00), (11, 0x40)],
        number: 3,
        bit: 89,
    },
    Change {
        why: "a right number in a set",
        bytes: &[(6, 0x00), (15, 0x40)],
        number: 3,
        bit: 90,
    },
    Change {
        why: "a right that is no variable",
        bytes: &[(11, 0x40), (15, 0x40)],
        number: 3,
        bit: 90,
    },
    Change {
        why: "filling of the edge",
        bytes: &[(15, 0x01)],
        number: 3,
        bit: 122,
    },
];

fn changed(change: Change) -> [u8; 16] {
    let mut bytes = MACRO_A;
    for (at, value) in change.bytes {
        if let Some(byte) = bytes.get_mut(*at) {
            *byte = *value;
        }
    }
    bytes
}

fn told(bytes: &[u8]) -> Option<Told> {
    read(bytes).err().map(ReadRefusal::told)
}

#[test]
fn macro_a_is_read(rt: HostRuntime) -> Result<(), Fail> {
    let Ok(header) = read_macro(&MACRO_A) else {
        return Err(Fail::new("refused"));
    };
    assert!(rt;
        header
            == Header {
                variables: 1,
                places: 2,
                guarded: 1,
                edges: 1,
            }
    );
    let edge = Edge {
        from: 0,
        to: 1,
        operation: Operation::Test {
            comparison: Comparison::Less,
            left: Operand::Variable(0),
            right: Operand::Constant(0),
        },
    };
    let Ok(file) = MacroFile::open(&MACRO_A) else {
        return Err(Fail::new("not opened"));
    };
    assert!(rt; file.edges().next() == Some(edge));
    Ok(())
}

/// Each field with a number that it may not have, and a length that the header does not ask for.
#[test]
fn each_field_is_refused(rt: HostRuntime) {
    for change in CHANGES {
        let expected = Told {
            number: change.number,
            call: Call::Read,
            bit: Some(change.bit),
            edge: (change.number == 3).then_some(0),
        };
        assert!(rt; told(&changed(change)) == Some(expected), "{}", change.why);
    }
}

/// A file of no bytes, and of each length up to 32 but the right one.
#[test]
fn each_wrong_length_is_refused(rt: HostRuntime) {
    let mut longer = [0u8; 32];
    longer[..16].copy_from_slice(&MACRO_A);
    let length = Told {
        number: 1,
        call: Call::Read,
        bit: Some(0),
        edge: None,
    };
    for count in 0..32usize {
        assert!(rt; told(&longer[..count]) == (count != 16).then_some(length));
    }
}
