//! Tests: chains and their ends are those of small programs worked by hand. Golden tests show which members a class
//! has, which type is accepted by which, and which class of a name counts.
use crate::made::{name, trees_of};
use mj_classes::{ClassChain, ClassRef, Declarations, End};
use mj_tree::FileTree;
use ordered_names::Name;
use std::alloc::{AllocError, Global};
use std::test::*;

/// A file with the main class `M`, one that is no sentence, and one that declares a class again and has cycles, two of
/// which are entered from outside.
const TEXTS: &[&str] = &[
    "class M { public static void main(String[] a) { { } } } class A { int x; boolean x; int y; public int g() { return 1; } public boolean f() { return true; } } class B extends A { boolean x; public A f() { return this; } public int f() { return 1; } }",
    "no file",
    "class A extends B { int z; } class C extends D { int k; } class D extends C { int n; } class E extends C { public int e() { return 1; } } class F extends F { int f; } class G extends Missing { int x; } class H extends E { } class P extends Q { } class Q extends R { int q; } class R extends S { } class S extends Q { public int s() { return 1; } }",
];

/// How a chain ends, or that there is none.
#[derive(Clone, Copy)]
enum Ending {
    Top,
    Undeclared(&'static str),
    Repeated(&'static str),
    NoChain,
}

/// A class, the numbers of its file and of the class in it, the names of those classes of its chain that declare members,
/// and the chain's end. Of a class that isn't declared the numbers say nothing.
struct Chain {
    class: &'static str,
    file: usize,
    number: usize,
    names: &'static [&'static str],
    end: Ending,
}

const CHAINS: &[Chain] = &[
    Chain {
        class: "M",
        file: 0,
        number: 0,
        names: &[],
        end: Ending::Top,
    },
    Chain {
        class: "A",
        file: 0,
        number: 1,
        names: &["A"],
        end: Ending::Top,
    },
    Chain {
        class: "B",
        file: 0,
        number: 2,
        names: &["B", "A"],
        end: Ending::Top,
    },
    Chain {
        class: "C",
        file: 2,
        number: 1,
        names: &["C", "D"],
        end: Ending::Repeated("C"),
    },
    Chain {
        class: "D",
        file: 2,
        number: 2,
        names: &["D", "C"],
        end: Ending::Repeated("D"),
    },
    Chain {
        class: "E",
        file: 2,
        number: 3,
        names: &["E", "C", "D"],
        end: Ending::Repeated("C"),
    },
    Chain {
        class: "F",
        file: 2,
        number: 4,
        names: &["F"],
        end: Ending::Repeated("F"),
    },
    Chain {
        class: "G",
        file: 2,
        number: 5,
        names: &["G"],
        end: Ending::Undeclared("Missing"),
    },
    Chain {
        class: "H",
        file: 2,
        number: 6,
        names: &["E", "C", "D"],
        end: Ending::Repeated("C"),
    },
    Chain {
        class: "P",
        file: 2,
        number: 7,
        names: &["Q", "S"],
        end: Ending::Repeated("Q"),
    },
    Chain {
        class: "Q",
        file: 2,
        number: 8,
        names: &["Q", "S"],
        end: Ending::Repeated("Q"),
    },
    Chain {
        class: "R",
        file: 2,
        number: 9,
        names: &["S", "Q"],
        end: Ending::Repeated("R"),
    },
    Chain {
        class: "S",
        file: 2,
        number: 10,
        names: &["S", "Q"],
        end: Ending::Repeated("S"),
    },
    Chain {
        class: "Missing",
        file: 0,
        number: 0,
        names: &[],
        end: Ending::NoChain,
    },
];

/// Whether the chain ends so.
fn is_end(end: &End, want: Ending) -> bool {
    match (end, want) {
        (End::Top, Ending::Top) => true,
        (End::Undeclared(name), Ending::Undeclared(want)) => name.as_str() == want,
        (End::Repeated(name), Ending::Repeated(want)) => name.as_str() == want,
        _ => false,
    }
}

/// Whether the class has this name.
fn is_named(class: Option<&ClassRef>, name: Option<&&str>) -> bool {
    match (class, name) {
        (Some(class), Some(name)) => class.name().as_str() == *name,
        _ => false,
    }
}

/// Whether the classes have these names.
fn are_named(classes: &[ClassRef], names: &[&str]) -> bool {
    for at in 0..names.len() {
        if !is_named(classes.get(at), names.get(at)) {
            return false;
        }
    }
    classes.len() == names.len()
}

/// Whether the class has this place and this chain.
fn is_chain(class: &ClassRef, chain: &ClassChain, row: &Chain) -> bool {
    class.name().as_str() == row.class
        && class.file == row.file
        && class.number == row.number
        && are_named(chain.classes.as_slice(), row.names)
        && is_end(&chain.end, row.end)
}

/// Whether this is the class of the case with its chain, or there is neither.
fn is_told(class: Option<ClassRef>, chain: &Option<ClassChain>, row: &Chain) -> bool {
    match (class, chain) {
        (Some(class), Some(chain)) => is_chain(&class, chain, row),
        (None, None) => matches!(row.end, Ending::NoChain),
        _ => false,
    }
}

/// Whether the class of this name, which is that of the case, has its chain, or none.
fn is_chain_of(
    alloc: Global,
    declarations: &Declarations,
    class: &Name,
    row: &Chain,
) -> Result<bool, AllocError> {
    let chain = declarations.chain(alloc, class)?;
    Ok(is_told(declarations.find(class), &chain, row))
}

/// Whether the class of the case has this chain, or none.
fn has_chain(alloc: Global, declarations: &Declarations, row: &Chain) -> Result<bool, AllocError> {
    let class = name(alloc, row.class)?;
    is_chain_of(alloc, declarations, &class, row)
}

/// Whether so many classes are declared, those of one name again, and all of the cases have their chains.
fn all_have_chains(
    alloc: Global,
    declarations: &Declarations,
    count: usize,
) -> Result<bool, AllocError> {
    for row in CHAINS {
        if !has_chain(alloc, declarations, row)? {
            return Ok(false);
        }
    }
    Ok(declarations.classes().len() == count)
}

/// Whether the classes of the files have just these chains, and so many are declared.
fn are_chains_of(
    alloc: Global,
    files: &[Option<FileTree>],
    count: usize,
) -> Result<bool, AllocError> {
    let declarations = Declarations::new(alloc, files)?;
    all_have_chains(alloc, &declarations, count)
}

/// The same of the files of these texts.
fn are_chains(alloc: Global, texts: &[&str], count: usize) -> Result<bool, AllocError> {
    let files = trees_of(alloc, texts)?;
    are_chains_of(alloc, &files, count)
}

#[test]
fn chains(rt: HostRuntime) {
    assert!(rt; are_chains(rt.alloc(), TEXTS, 14) == Ok(true));
}
