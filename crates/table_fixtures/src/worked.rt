//! Sessions of the class that prints 1, worked by hand: which of its records are executed, and what its edit changes.

use crate::changes::Other;

/// The places of its ten queries among the records of its first session.
pub const ALL_QUERIES: &[usize] = &[2, 3, 4, 5, 6, 7, 8, 9, 10, 11];

/// The queries that are executed when it prints another number: the tree, the index, the header, the method, the check of
/// its body and the answer.
pub const OF_EDIT: &[usize] = &[2, 3, 4, 5, 9, 11];

/// The records that have other results when it prints 2: its source, its tree and the method.
pub const PRINTS_2: &[Other] = &[
    Other {
        at: 1,
        digits: "0101000000000000004a636c617373204d207b207075626c69632073746174696320766f6964206d61696e28537472696e675b5d206129207b2053797374656d2e6f75742e7072696e746c6e2832293b207d207d",
    },
    Other {
        at: 2,
        digits: "020101014d030000000b0800000011000000020000000000000000",
    },
    Other {
        at: 5,
        digits: "050100030000000b080000001100000002",
    },
];
