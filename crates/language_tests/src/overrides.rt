//! Tests: which methods may override one of the rest of the chain, in both profiles.
use mj_answer::{Answer, Code, Diagnostic};
use mj_rules::{Profile, Project, scratch_as};
use mj_tree::Place;
use std::alloc::{AllocError, Global};

/// Stands for the number of a method, of a diagnostic at another place.
const ELSEWHERE: usize = 99;

/// Classes of which one is B, and the diagnostics of B with the numbers of their methods, in each profile.
struct Row {
    text: &'static str,
    one: &'static [(Code, usize)],
    two: &'static [(Code, usize)],
}

const SUBCLASS: Row = Row {
    text: "class A { public A g() { return this; } } class B extends A { public B g() { return this; } }",
    one: &[(Code::E205, 0)],
    two: &[],
};

const EQUAL: Row = Row {
    text: "class A { public A g() { return this; } } class B extends A { public A g() { return this; } }",
    one: &[],
    two: &[],
};

const SUPERCLASS: Row = Row {
    text: "class A { public B g() { return new B(); } } class B extends A { public A g() { return this; } }",
    one: &[(Code::E205, 0)],
    two: &[(Code::E205, 0)],
};

const NO_CLASS: Row = Row {
    text: "class A { public A g() { return this; } } class B extends A { public int g() { return 1; } }",
    one: &[(Code::E205, 0)],
    two: &[(Code::E205, 0)],
};

const MORE_FORMALS: Row = Row {
    text: "class A { public A g() { return this; } } class B extends A { public B g(int a) { return this; } }",
    one: &[(Code::E205, 0)],
    two: &[(Code::E205, 0)],
};

const FORMAL_OF_A_SUBCLASS: Row = Row {
    text: "class A { public int g(A a) { return 1; } } class B extends A { public int g(B a) { return 1; } }",
    one: &[(Code::E205, 0)],
    two: &[(Code::E205, 0)],
};

/// The nearest one counts, which returns C.
const NEAREST: Row = Row {
    text: "class A { public A g() { return this; } } class C extends A { public C g() { return this; } } class B extends C { public A g() { return this; } }",
    one: &[(Code::E205, 0)],
    two: &[(Code::E205, 0)],
};

/// Only the first method of a name is asked.
const REPEATED: Row = Row {
    text: "class A { public A g() { return this; } } class B extends A { public B g() { return this; } public int g() { return 1; } }",
    one: &[(Code::E205, 0), (Code::E204, 1)],
    two: &[(Code::E204, 1)],
};

const TWO_METHODS: Row = Row {
    text: "class A { public A g() { return this; } public A h() { return this; } } class B extends A { public B g() { return this; } public int[] h() { return new int[1]; } }",
    one: &[(Code::E205, 0), (Code::E205, 1)],
    two: &[(Code::E205, 1)],
};

/// An undeclared class has no chain.
const UNDECLARED: Row = Row {
    text: "class A { public U g() { return this.g(); } } class B extends A { public V g() { return this.g(); } }",
    one: &[(Code::E205, 0), (Code::E206, ELSEWHERE)],
    two: &[(Code::E205, 0), (Code::E206, ELSEWHERE)],
};

/// B's chain is B and A, and ends with B.
const RING: Row = Row {
    text: "class A extends B { public A g() { return this; } } class B extends A { public B g() { return this; } }",
    one: &[(Code::E202, ELSEWHERE), (Code::E205, 0)],
    two: &[(Code::E202, ELSEWHERE)],
};

/// The rest of B's chain has no method.
const RING_OF_ONE: Row = Row {
    text: "class B extends B { public B g() { return this; } }",
    one: &[(Code::E202, ELSEWHERE)],
    two: &[(Code::E202, ELSEWHERE)],
};

const ROWS: &[Row] = &[
    SUBCLASS,
    EQUAL,
    SUPERCLASS,
    NO_CLASS,
    MORE_FORMALS,
    FORMAL_OF_A_SUBCLASS,
    NEAREST,
    REPEATED,
    TWO_METHODS,
    UNDECLARED,
    RING,
    RING_OF_ONE,
];

fn number_of(place: &Place) -> usize {
    match place {
        Place::Method(number) => *number,
        _ => ELSEWHERE,
    }
}

fn is_fault(fault: &Diagnostic, want: Option<&(Code, usize)>) -> bool {
    match want {
        Some((code, number)) => fault.code == *code && number_of(&fault.place) == *number,
        None => false,
    }
}

fn are_faults(faults: &[Diagnostic], want: &[(Code, usize)]) -> bool {
    for (number, fault) in faults.iter().enumerate() {
        if !is_fault(fault, want.get(number)) {
            return false;
        }
    }
    faults.len() == want.len()
}

/// Whether these are the diagnostics of B.
fn are_of_b(answer: &Answer, want: &[(Code, usize)]) -> bool {
    for class in answer.classes() {
        if class.name().as_str() == "B" {
            return are_faults(class.faults(), want);
        }
    }
    false
}

/// One file with this text.
fn files(alloc: Global, text: &str) -> Result<Vec<(String, Vec<u8>)>, AllocError> {
    let mut list = Vec::new(alloc);
    let bytes = text.as_bytes().to_vec(alloc)?;
    list.push((String::from_str(alloc, "A.java")?, bytes))?;
    Ok(list)
}

/// Whether B has these diagnostics in a profile.
fn is_checked(
    alloc: Global,
    profile: Profile,
    text: &str,
    want: &[(Code, usize)],
) -> Result<bool, AllocError> {
    match Project::new(alloc, files(alloc, text)?) {
        Ok(project) => Ok(are_of_b(&scratch_as(alloc, profile, &project)?, want)),
        Err(_) => Ok(false),
    }
}

#[test]
fn overrides_by_profile(rt: HostRuntime) {
    for row in ROWS {
        assert!(rt; is_checked(rt.alloc(), Profile::One, row.text, row.one) == Ok(true));
        assert!(rt; is_checked(rt.alloc(), Profile::Two, row.text, row.two) == Ok(true));
    }
}
