use crate::values::{ANSWERS, CLASS_OF_EVERY_PHRASE, EVERY_PHRASE};
use answer_fixtures::{has_body, is_copied, is_printed_again};
use item_ids::Kind;
use std::test::*;

// What spells values that are made of copies of their parts.
const COPIED: &[(Kind, &str)] = &[
    (
        Kind::Header,
        "04010000000000000000000201780001790301410000000000000000",
    ),
    (Kind::Sig, "06010000000000000003000103014102"),
    (Kind::Method, "050100030000000b080000001100000001"),
    (Kind::Method, EVERY_PHRASE),
];

/// A tree, names of a class and of a method, and what spells the body that they name in it.
struct Named {
    tree: &'static str,
    class: &'static str,
    method: &'static str,
    body: &'static str,
}

// A main class M that prints 1; a class A whose methods f return 1 and 2, a class A with g, and a class M with main.
const CLASSES: &str =
    "020101014d030000000b08000000110000000100000000000000030141000000000000000000000000000000000201016600000000000000000000000000000000000000000000000000080000000800000001000000070101660000000000000000000000000000000000000000000000000008000000080000000200000007014100000000000000000000000000000000010101670000000000000000000000000000000000000000000000000008000000080000000300000007014d000000000000000000000000000000000101046d61696e0000000000000000000000000000000000000000000000000008000000080000000400000007";

const NAMED: &[Named] = &[
    Named {
        tree: CLASS_OF_EVERY_PHRASE,
        class: "A",
        method: "f",
        body: EVERY_PHRASE,
    },
    Named {
        tree: CLASSES,
        class: "A",
        method: "f",
        body: "05010101660000000000000000000000000000000000000000000000000008000000080000000100000007",
    },
    // A later class of the name, a class and a name that aren't there.
    Named {
        tree: CLASSES,
        class: "A",
        method: "g",
        body: "0500",
    },
    Named {
        tree: CLASSES,
        class: "B",
        method: "f",
        body: "0500",
    },
    Named {
        tree: CLASSES,
        class: "A",
        method: "main",
        body: "0500",
    },
    // The main class has its statement, and hides a later class of its name.
    Named {
        tree: CLASSES,
        class: "M",
        method: "main",
        body: "050100030000000b080000001100000001",
    },
    Named {
        tree: CLASSES,
        class: "M",
        method: "f",
        body: "0500",
    },
];

#[test]
fn parts_of_values(rt: HostRuntime) -> Result<(), Fail> {
    for (kind, digits) in COPIED {
        assert!(rt; is_copied(rt.alloc(), *kind, digits)?, "{digits}");
    }
    Ok(())
}

#[test]
fn tables_and_faults(rt: HostRuntime) -> Result<(), Fail> {
    for (digits, text) in ANSWERS {
        assert!(rt; is_printed_again(rt.alloc(), digits, text)?, "{digits}");
    }
    Ok(())
}

#[test]
fn named_bodies(rt: HostRuntime) -> Result<(), Fail> {
    for row in NAMED {
        assert!(rt;
            has_body(rt.alloc(), row.tree, row.class, row.method, row.body)?,
            "{} {}",
            row.class,
            row.method
        );
    }
    Ok(())
}
