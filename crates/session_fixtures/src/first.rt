//! The records of a first session, worked by hand from the rules and the formats.

use crate::records::Kept;
use answer_fixtures::KeyParts;
use item_ids::Kind;
use sessions::Mark;

/// The first session of the file M.java with the main class M, whose statement prints 1.
pub const FIRST: &[Kept] = &[
    Kept {
        key: KeyParts(Kind::Files, "", ""),
        mark: Mark::Input,
        edges: &[],
        digits: "000000000000000001064d2e6a617661",
    },
    Kept {
        key: KeyParts(Kind::Source, "M.java", ""),
        mark: Mark::Input,
        edges: &[],
        digits: "0101000000000000004a636c617373204d207b207075626c69632073746174696320766f6964206d61696e28537472696e675b5d206129207b2053797374656d2e6f75742e7072696e746c6e2831293b207d207d",
    },
    Kept {
        key: KeyParts(Kind::Tree, "M.java", ""),
        mark: Mark::Executed,
        edges: &[1],
        digits: "020101014d030000000b0800000011000000010000000000000000",
    },
    Kept {
        key: KeyParts(Kind::Index, "", ""),
        mark: Mark::Executed,
        edges: &[0, 2],
        digits: "030000000000000001014d064d2e6a617661",
    },
    Kept {
        key: KeyParts(Kind::Header, "M", ""),
        mark: Mark::Executed,
        edges: &[3, 2],
        digits: "0401010000000000000000000000000000000000",
    },
    Kept {
        key: KeyParts(Kind::Method, "M", "main"),
        mark: Mark::Executed,
        edges: &[3, 2],
        digits: "050100030000000b080000001100000001",
    },
    Kept {
        key: KeyParts(Kind::Supers, "M", ""),
        mark: Mark::Executed,
        edges: &[3, 4],
        digits: "07010000000000000001014d00",
    },
    Kept {
        key: KeyParts(Kind::Members, "M", ""),
        mark: Mark::Executed,
        edges: &[6, 4],
        digits: "080100000000000000000000000000000000",
    },
    Kept {
        key: KeyParts(Kind::CheckClass, "M", ""),
        mark: Mark::Executed,
        edges: &[4, 6],
        digits: "090000000000000000",
    },
    Kept {
        key: KeyParts(Kind::CheckBody, "M", "main"),
        mark: Mark::Executed,
        edges: &[5],
        digits: "0a0000000000000000",
    },
    Kept {
        key: KeyParts(Kind::Diags, "M", ""),
        mark: Mark::Executed,
        edges: &[4, 8, 9],
        digits: "0b0000000000000000",
    },
    Kept {
        key: KeyParts(Kind::Answer, "", ""),
        mark: Mark::Executed,
        edges: &[0, 2, 3, 7, 10],
        digits: "0c00000000000000000000000000000001014d000000000000000000000000000000000000000000000000",
    },
];
