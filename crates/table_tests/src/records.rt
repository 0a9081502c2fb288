//! The records of sessions, worked by hand from the rules: which key reads which, and the canonical bytes of each result.

use answer_fixtures::KeyParts;
use item_ids::Kind;
use session_fixtures::{FIRST, FIRST_TERMS, Kept, SECOND_OF_BOTH};
use sessions::Mark;
use table_fixtures::{ALL_QUERIES, Change, OF_EDIT, PRINTS_2};

/// A chain of sessions of the class that prints 1: all ten queries are executed; and then, when it prints 2, the tree,
/// the index, the header, the method, the check of its body and the answer.
static SESSIONS_OF_ONE: [Change; 2] = [
    Change {
        terms: FIRST_TERMS,
        records: FIRST,
        executed: ALL_QUERIES,
        others: &[],
    },
    Change {
        terms: FIRST_TERMS,
        records: FIRST,
        executed: OF_EDIT,
        others: PRINTS_2,
    },
];

/// The sessions of the class that prints 1. One function names them for all others, since each that names such a list
/// writes it out, which is expensive to prove.
pub(crate) fn sessions_of_one() -> &'static [Change; 2] {
    &SESSIONS_OF_ONE
}

/// A chain of sessions of the class that prints 1, the second of which is in profile 2 and form 2: the class is checked
/// again.
pub(crate) static SESSIONS_ACROSS: [Change; 2] = [
    Change {
        terms: FIRST_TERMS,
        records: FIRST,
        executed: ALL_QUERIES,
        others: &[],
    },
    Change {
        terms: SECOND_OF_BOTH,
        records: FIRST,
        executed: &[8],
        others: &[],
    },
];

/// The first session of the two classes.
const FIRST_OF_TWO: &[Kept] = &[
    Kept {
        key: KeyParts(Kind::Files, "", ""),
        mark: Mark::Input,
        edges: &[],
        digits: "000000000000000001064d2e6a617661",
    },
    Kept {
        key: KeyParts(Kind::Source, "M.java", ""),
        mark: Mark::Input,
        edges: &[],
        digits: "0101000000000000009a636c617373204d207b207075626c69632073746174696320766f6964206d61696e28537472696e675b5d206129207b2053797374656d2e6f75742e7072696e746c6e286e6577204128292e662829293b207d207d20636c6173732041207b207075626c696320696e7420662829207b2072657475726e20313b207d207075626c696320696e7420672829207b2072657475726e20323b207d207d",
    },
    Kept {
        key: KeyParts(Kind::Tree, "M.java", ""),
        mark: Mark::Executed,
        edges: &[1],
        digits: "020101014d030000000b07000000160e0000001101410166000000000000000000000000000000010141000000000000000000000000000000000201016600000000000000000000000000000000000000000000000000080000000700000001000000060101670000000000000000000000000000000000000000000000000008000000070000000200000006",
    },
    Kept {
        key: KeyParts(Kind::Index, "", ""),
        mark: Mark::Executed,
        edges: &[0, 2],
        digits: "0300000000000000020141064d2e6a617661014d064d2e6a617661",
    },
    Kept {
        key: KeyParts(Kind::Header, "A", ""),
        mark: Mark::Executed,
        edges: &[3, 2],
        digits: "040100000000000000000000000000000000000201660167",
    },
    Kept {
        key: KeyParts(Kind::Header, "M", ""),
        mark: Mark::Executed,
        edges: &[3, 2],
        digits: "0401010000000000000000000000000000000000",
    },
    Kept {
        key: KeyParts(Kind::Method, "A", "f"),
        mark: Mark::Executed,
        edges: &[3, 2],
        digits: "05010101660000000000000000000000000000000000000000000000000008000000070000000100000006",
    },
    Kept {
        key: KeyParts(Kind::Method, "A", "g"),
        mark: Mark::Executed,
        edges: &[3, 2],
        digits: "05010101670000000000000000000000000000000000000000000000000008000000070000000200000006",
    },
    Kept {
        key: KeyParts(Kind::Method, "M", "main"),
        mark: Mark::Executed,
        edges: &[3, 2],
        digits: "050100030000000b07000000160e00000011014101660000000000000000",
    },
    Kept {
        key: KeyParts(Kind::Sig, "A", "f"),
        mark: Mark::Executed,
        edges: &[6],
        digits: "0601000000000000000000",
    },
    Kept {
        key: KeyParts(Kind::Sig, "A", "g"),
        mark: Mark::Executed,
        edges: &[7],
        digits: "0601000000000000000000",
    },
    Kept {
        key: KeyParts(Kind::Supers, "A", ""),
        mark: Mark::Executed,
        edges: &[3, 4],
        digits: "07010000000000000001014100",
    },
    Kept {
        key: KeyParts(Kind::Supers, "M", ""),
        mark: Mark::Executed,
        edges: &[3, 5],
        digits: "07010000000000000001014d00",
    },
    Kept {
        key: KeyParts(Kind::Members, "A", ""),
        mark: Mark::Executed,
        edges: &[11, 4, 9, 10],
        digits: "0801000000000000000000000000000000020166014100000000000000000001670141000000000000000000",
    },
    Kept {
        key: KeyParts(Kind::Members, "M", ""),
        mark: Mark::Executed,
        edges: &[12, 5],
        digits: "080100000000000000000000000000000000",
    },
    Kept {
        key: KeyParts(Kind::CheckClass, "A", ""),
        mark: Mark::Executed,
        edges: &[4, 11],
        digits: "090000000000000000",
    },
    Kept {
        key: KeyParts(Kind::CheckClass, "M", ""),
        mark: Mark::Executed,
        edges: &[5, 12],
        digits: "090000000000000000",
    },
    Kept {
        key: KeyParts(Kind::CheckBody, "A", "f"),
        mark: Mark::Executed,
        edges: &[6],
        digits: "0a0000000000000000",
    },
    Kept {
        key: KeyParts(Kind::CheckBody, "A", "g"),
        mark: Mark::Executed,
        edges: &[7],
        digits: "0a0000000000000000",
    },
    Kept {
        key: KeyParts(Kind::CheckBody, "M", "main"),
        mark: Mark::Executed,
        edges: &[8, 4, 13],
        digits: "0a0000000000000000",
    },
    Kept {
        key: KeyParts(Kind::Diags, "A", ""),
        mark: Mark::Executed,
        edges: &[4, 15, 17, 18],
        digits: "0b0000000000000000",
    },
    Kept {
        key: KeyParts(Kind::Diags, "M", ""),
        mark: Mark::Executed,
        edges: &[5, 16, 19],
        digits: "0b0000000000000000",
    },
    Kept {
        key: KeyParts(Kind::Answer, "", ""),
        mark: Mark::Executed,
        edges: &[0, 2, 3, 13, 20, 14, 21],
        digits: "0c0000000000000000000000000000000201410000000000000000000000000000000201660141000000000000000000016701410000000000000000000000000000000000014d000000000000000000000000000000000000000000000000",
    },
];

/// A chain of one session of the two classes: all twenty-one queries are executed.
pub(crate) static SESSIONS_OF_TWO: [Change; 1] = [Change {
    terms: FIRST_TERMS,
    records: FIRST_OF_TWO,
    executed: &[
        2, 3, 4, 5, 6, 7, 8, 9, 10, 11, 12, 13, 14, 15, 16, 17, 18, 19, 20, 21, 22,
    ],
    others: &[],
}];

/// The tree of the class that prints 1 with a comment behind it, and what it reads.
pub(crate) const COMMENTED: &[Kept] = &[
    Kept {
        key: KeyParts(Kind::Files, "", ""),
        mark: Mark::Input,
        edges: &[],
        digits: "000000000000000001064d2e6a617661",
    },
    Kept {
        key: KeyParts(Kind::Source, "M.java", ""),
        mark: Mark::Input,
        edges: &[],
        digits: "0101000000000000004f636c617373204d207b207075626c69632073746174696320766f6964206d61696e28537472696e675b5d206129207b2053797374656d2e6f75742e7072696e746c6e2831293b207d207d202f2f2078",
    },
    Kept {
        key: KeyParts(Kind::Tree, "M.java", ""),
        mark: Mark::Executed,
        edges: &[1],
        digits: "020101014d030000000b0800000011000000010000000000000000",
    },
];

/// The tree of the class that prints true, and what it reads.
pub(crate) const TRUE: &[Kept] = &[
    Kept {
        key: KeyParts(Kind::Files, "", ""),
        mark: Mark::Input,
        edges: &[],
        digits: "000000000000000001064d2e6a617661",
    },
    Kept {
        key: KeyParts(Kind::Source, "M.java", ""),
        mark: Mark::Input,
        edges: &[],
        digits: "0101000000000000004d636c617373204d207b207075626c69632073746174696320766f6964206d61696e28537472696e675b5d206129207b2053797374656d2e6f75742e7072696e746c6e2874727565293b207d207d",
    },
    Kept {
        key: KeyParts(Kind::Tree, "M.java", ""),
        mark: Mark::Executed,
        edges: &[1],
        digits: "020101014d030000000b09000000110000000000000000",
    },
];

/// The tree of the class that prints 1, and what it reads.
pub(crate) const PLAIN: &[Kept] = &[
    Kept {
        key: KeyParts(Kind::Files, "", ""),
        mark: Mark::Input,
        edges: &[],
        digits: "000000000000000001064d2e6a617661",
    },
    Kept {
        key: KeyParts(Kind::Source, "M.java", ""),
        mark: Mark::Input,
        edges: &[],
        digits: "0101000000000000004a636c617373204d207b207075626c69632073746174696320766f6964206d61696e28537472696e675b5d206129207b2053797374656d2e6f75742e7072696e746c6e2831293b207d207d",
    },
    Kept {
        key: KeyParts(Kind::Tree, "M.java", ""),
        mark: Mark::Executed,
        edges: &[1],
        digits: "020101014d030000000b0800000011000000010000000000000000",
    },
];

/// The check of the class that prints 1, and what it reads.
pub(crate) const CHECKED: &[Kept] = &[
    Kept {
        key: KeyParts(Kind::Header, "M", ""),
        mark: Mark::Green,
        edges: &[],
        digits: "0401010000000000000000000000000000000000",
    },
    Kept {
        key: KeyParts(Kind::Supers, "M", ""),
        mark: Mark::Green,
        edges: &[],
        digits: "07010000000000000001014d00",
    },
    Kept {
        key: KeyParts(Kind::CheckClass, "M", ""),
        mark: Mark::Executed,
        edges: &[0, 1],
        digits: "090000000000000000",
    },
];

/// The header of a class that isn't there, which reads the index.
pub(crate) const MISSING: &[Kept] = &[Kept {
    key: KeyParts(Kind::Header, "Z", ""),
    mark: Mark::Executed,
    edges: &[3],
    digits: "0400",
}];
