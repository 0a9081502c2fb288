//! Tests: the questions of a check and the order of its mistakes are worked by hand from the language's rules. What
//! each phrase demands is shown by golden tests.
use crate::made::trees_of;
use mj_answer::Code;
use mj_phrases::{Asking, MethodSignature, Mistake, Stop};
use mj_tree::{ClassTree, FileTree, MainTree, Ty};
use mj_typing::{check_main, check_method};
use ordered_names::Name;
use std::alloc::{AllocError, Global};
use std::test::*;

/// The types of a method.
#[derive(Drop)]
struct Types {
    formals: Vec<Ty>,
    returns: Ty,
}

impl MethodSignature for Types {
    ghost sig = { λ types. record { formals = types.formals.items; returns = types.returns } };

    fn formals(&self) -> &[Ty] {
        self.formals.as_slice()
    }

    fn returns(&self) -> &Ty {
        &self.returns
    }
}

/// The types `boolean f(int, A)`.
fn types_of_f(alloc: Global) -> Result<Types, AllocError> {
    let class = Name::new(alloc, "A")?;
    Ok(Types {
        formals: Vec::from_array(alloc, [Ty::Int, Ty::Class(class)])?,
        returns: Ty::Boolean,
    })
}

fn is_known(class: &Name) -> bool {
    matches!(class.as_str(), "A" | "B")
}

/// Knows a class A with the field `int x` and the method `boolean f(int, A)` and a class B that extends it. It keeps
/// what it was asked, and refuses from a number of answers on.
#[derive(Drop)]
struct Scribe {
    asked: String,
    answers: usize,
}

impl Scribe {
    fn new(alloc: Global, answers: usize) -> Self {
        Scribe {
            asked: String::new(alloc),
            answers,
        }
    }

    fn ask(&mut self, first: &str, sign: &str, second: &str) -> Result<(), Stop<usize>> {
        if self.answers == 0 {
            return Err(Stop::Refused(7));
        }
        self.answers -= 1;
        Ok(note(&mut self.asked, first, sign, second)?)
    }
}

/// Adds what is asked to the text.
fn note(text: &mut String, first: &str, sign: &str, second: &str) -> Result<(), AllocError> {
    text.push_str(first)?;
    text.push_str(sign)?;
    text.push_str(second)?;
    Ok(text.push_str(" ")?)
}

impl Asking for Scribe {
    type Refusal = usize;

    type Method = Types;

    ghost stands = { λ s start now. Unit {0} };

    ghost halts = { λ s start e. Unit {0} };

    ghost follows = { λ s t. Unit {0} };

    ghost reflexive = { λ s. tt };

    ghost transitive = { λ s t u a b. tt };

    ghost wanting = { λ s start now h. tt };

    fn descends(
        &mut self,
        _alloc: Global,
        class: &Name,
        ancestor: &Name,
    ) -> Result<bool, Stop<usize>> {
        self.ask(class.as_str(), "<", ancestor.as_str())?;
        Ok(class.as_str() == "B" && ancestor.as_str() == "A")
    }

    fn field(
        &mut self,
        _alloc: Global,
        class: &Name,
        name: &Name,
    ) -> Result<Option<Ty>, Stop<usize>> {
        self.ask(class.as_str(), ".", name.as_str())?;
        match name.as_str() {
            "x" => Ok(Some(Ty::Int)),
            _ => Ok(None),
        }
    }

    fn method(
        &mut self,
        alloc: Global,
        class: &Name,
        name: &Name,
    ) -> Result<Option<Types>, Stop<usize>> {
        self.ask(class.as_str(), ":", name.as_str())?;
        if is_known(class) && name.as_str() == "f" {
            Ok(Some(types_of_f(alloc)?))
        } else {
            Ok(None)
        }
    }

    fn is_declared(&mut self, _alloc: Global, class: &Name) -> Result<bool, Stop<usize>> {
        self.ask(class.as_str(), "?", "")?;
        Ok(is_known(class))
    }
}

/// What is checked, the one file's main or else its first class's first method; how many questions are answered; what is asked; and
/// the mistakes that are found with their marks, or none if a question is refused.
struct Row {
    texts: &'static [&'static str],
    answers: usize,
    asked: &'static str,
    mistakes: Option<&'static [(Code, usize)]>,
}

/// Whether this is the mistake.
fn is_mistake(mistake: Option<&Mistake>, want: Option<&(Code, usize)>) -> bool {
    match (mistake, want) {
        (Some(mistake), Some((code, mark))) => mistake.code == *code && mistake.mark == *mark,
        _ => false,
    }
}

/// Whether these are the mistakes.
fn are_mistakes(mistakes: &[Mistake], want: &[(Code, usize)]) -> bool {
    for at in 0..want.len() {
        if !is_mistake(mistakes.get(at), want.get(at)) {
            return false;
        }
    }
    mistakes.len() == want.len()
}

/// Whether this came of a check.
fn is_found(scribe: &Scribe, found: &Result<Vec<Mistake>, Stop<usize>>, row: &Row) -> bool {
    let is_end = match (found, row.mistakes) {
        (Ok(mistakes), Some(want)) => are_mistakes(mistakes, want),
        (Err(Stop::Refused(7)), None) => true,
        _ => false,
    };
    is_end && scribe.asked.as_str() == row.asked
}

/// The same of values that go no further: they are dropped here alone.
fn is_end(scribe: Scribe, found: Result<Vec<Mistake>, Stop<usize>>, row: &Row) -> bool {
    is_found(&scribe, &found, row)
}

/// Whether this comes of the check of a class's first method.
fn is_of_first(alloc: Global, class: &ClassTree, row: &Row) -> bool {
    let Some(method) = class.methods.first() else {
        return false;
    };
    let mut scribe = Scribe::new(alloc, row.answers);
    let found = check_method(alloc, &mut scribe, &class.name, method);
    is_end(scribe, found, row)
}

/// Whether this comes of the check of the main.
fn is_of_statement(alloc: Global, main: &MainTree, row: &Row) -> bool {
    let mut scribe = Scribe::new(alloc, row.answers);
    let found = check_main(alloc, &mut scribe, main);
    is_end(scribe, found, row)
}

fn is_of_file(alloc: Global, tree: &FileTree, row: &Row) -> bool {
    match (&tree.main, tree.classes.first()) {
        (Some(main), _) => is_of_statement(alloc, main, row),
        (None, Some(class)) => is_of_first(alloc, class, row),
        (None, None) => false,
    }
}

/// Whether this comes of the check of the case's text.
fn is_right(alloc: Global, row: &Row) -> Result<bool, AllocError> {
    let trees = trees_of(alloc, row.texts)?;
    match trees.first() {
        Some(Some(tree)) => Ok(is_of_file(alloc, tree, row)),
        _ => Ok(false),
    }
}

/// A method whose check asks each question: the class types declared, then each phrase behind its parts.
const ASKING: &[&str] = &[
    "class A { public A g(B b, int n) { C c; y = b; n = x + y; n = b.f(n, b); b = new B(); return b; } }",
];

// Of the method, so many questions are answered. Of the next one a name is repeated, which comes before the types of the
// whole method. A main has no names, and asks nothing.
const ROWS: &[Row] = &[
    Row {
        texts: ASKING,
        answers: 0,
        asked: "",
        mistakes: None,
    },
    Row {
        texts: ASKING,
        answers: 1,
        asked: "A? ",
        mistakes: None,
    },
    Row {
        texts: ASKING,
        answers: 2,
        asked: "A? B? ",
        mistakes: None,
    },
    Row {
        texts: ASKING,
        answers: 3,
        asked: "A? B? C? ",
        mistakes: None,
    },
    Row {
        texts: ASKING,
        answers: 4,
        asked: "A? B? C? A.y ",
        mistakes: None,
    },
    Row {
        texts: ASKING,
        answers: 5,
        asked: "A? B? C? A.y A.x ",
        mistakes: None,
    },
    Row {
        texts: ASKING,
        answers: 6,
        asked: "A? B? C? A.y A.x A.y ",
        mistakes: None,
    },
    Row {
        texts: ASKING,
        answers: 7,
        asked: "A? B? C? A.y A.x A.y B:f ",
        mistakes: None,
    },
    Row {
        texts: ASKING,
        answers: 8,
        asked: "A? B? C? A.y A.x A.y B:f B<A ",
        mistakes: None,
    },
    Row {
        texts: ASKING,
        answers: 9,
        asked: "A? B? C? A.y A.x A.y B:f B<A B? ",
        mistakes: None,
    },
    Row {
        texts: ASKING,
        answers: 10,
        asked: "A? B? C? A.y A.x A.y B:f B<A B? B<A ",
        mistakes: Some(&[
            (Code::E206, 11),
            (Code::E303, 14),
            (Code::E303, 22),
            (Code::E318, 25),
        ]),
    },
    Row {
        texts: &["class A { public C g(D d, int d) { C c; return c; } }"],
        answers: 10,
        asked: "C? D? C? ",
        mistakes: Some(&[
            (Code::E207, 8),
            (Code::E206, 1),
            (Code::E206, 4),
            (Code::E206, 11),
        ]),
    },
    Row {
        texts: &[
            "class M { public static void main(String[] a) { System.out.println(x + (this.f(y))); } }",
        ],
        answers: 0,
        asked: "",
        mistakes: Some(&[(Code::E303, 17), (Code::E306, 20), (Code::E303, 24)]),
    },
];

#[test]
fn questions_and_mistakes(rt: HostRuntime) {
    for row in ROWS {
        assert!(rt; is_right(rt.alloc(), row) == Ok(true));
    }
}
