//! Tests: expected values are from the language's rules and its worked examples. Golden tests show which texts are
//! no file, where they stop being one, and the levels.
use mj_lexer::{LexFault, Token, lex};
use mj_parser::{locate, parse};
use mj_tree::{ClassTree, Exp, FileTree, MainTree, MethodTree, Place, Stmt, Ty, Variable};
use ordered_names::Name;
use std::alloc::{AllocError, Global};
use std::test::Fail;

/// A main class and a class with a method.
const MARKED: &str =
    "class M { public static void main(String[] a) { System.out.println(1); } } class A { public int f(int[] x, A y) { int z; z = x[0]; return z; } }";

/// Whether it prints 1.
fn is_main(main: &MainTree) -> bool {
    matches!(
        &main.statement,
        Stmt::Print {
            mark: 11,
            value: Exp::Literal { mark: 17, value: 1 }
        }
    )
}

/// Whether the variable has this type, which begins at this token.
fn is_variable(variable: &Variable, mark: usize, ty: &Ty) -> bool {
    variable.mark == mark && variable.ty == *ty
}

/// Whether it is the assignment to z.
fn is_assignment(statement: &Stmt) -> bool {
    matches!(
        statement,
        Stmt::Assign {
            mark: 17,
            name_mark: 16,
            value: Exp::Index { mark: 19, .. },
            ..
        }
    )
}

/// Whether each part of the method has the number of its token.
fn is_method(method: &MethodTree) -> bool {
    method.return_mark == 23
        && method
            .formals
            .first()
            .is_some_and(|x| is_variable(x, 4, &Ty::IntArray))
        && method
            .locals
            .first()
            .is_some_and(|z| is_variable(z, 13, &Ty::Int))
        && method.body.first().is_some_and(is_assignment)
}

fn is_class(class: &ClassTree) -> bool {
    class.methods.first().is_some_and(is_method)
}

fn is_marked(tree: &FileTree) -> bool {
    tree.main.as_ref().is_some_and(is_main) && tree.classes.first().is_some_and(is_class)
}

/// Whether it was made and is like this. It is made of any type, so that how a tree is dropped isn't written out here.
fn is_made<T: Drop, E: Drop, F: Fn(&T) -> bool>(made: Result<T, E>, is: &F) -> bool
    requires { F.IsAlwaysCallable is.now }
{
    match made {
        Ok(made) => is(&made),
        Err(_) => false,
    }
}

/// Whether each part of the text has the number of its token.
#[test]
fn marks(rt: HostRuntime) -> Result<(), Fail> {
    let tokens = lex(rt.alloc(), MARKED.as_bytes())?;
    assert!(rt; is_made(parse(rt.alloc(), &tokens), &|tree| is_marked(tree)));
    Ok(())
}

/// Files before, in and behind a part that stands there 100,000 times.
const LONG_FILES: &[(&str, &str, &str)] = &[
    ("class A { ", "int x;", "}"),
    ("class A { public int f() { ", "int x;", "return 1; } }"),
    ("class A { public int f() { ", "x=1;", "return 1; } }"),
    ("class A { public int f() { {", "x=1;", "} return 1; } }"),
    ("class A { public int f() { return a.f(1", ",1", "); } }"),
    ("class A { public int f(int x", ",A y", ") { return 1; } }"),
    ("", "class A{}", ""),
];

/// A text with a part as often as said between two others.
fn with_repeats(
    alloc: Global,
    row: &(&str, &str, &str),
    count: usize,
) -> Result<String, AllocError> {
    let (before, part, after) = row;
    let parts = part.repeat(alloc, count)?;
    format!(in alloc; "{before}{parts}{after}")
}

/// Whether the text is a file.
fn is_file(alloc: Global, text: &str) -> Result<bool, LexFault> {
    let tokens = lex(alloc, text.as_bytes())?;
    Ok(is_made(parse(alloc, &tokens), &|_| true))
}

fn is_long_file(alloc: Global, row: &(&str, &str, &str)) -> Result<bool, LexFault> {
    let text = with_repeats(alloc, row, 100000)?;
    is_file(alloc, text.as_str())
}

#[test]
fn long_files(rt: HostRuntime) -> Result<(), Fail> {
    for row in LONG_FILES {
        assert!(rt; is_long_file(rt.alloc(), row)?, "{row:?}");
    }
    Ok(())
}

fn start_of(tokens: &[Token], place: Option<usize>) -> Option<usize> {
    let token = tokens.get(place?)?;
    Some(token.start)
}

const PLACED: &str =
    "class /* c */ M { public static void main(String[] a) { System.out.println(1); } } class A extends M { int[] x; A y; public /* d */ int[] f(int z) { return x; } public A g() { return y; } public A f() { return y; } }";

/// Whether the token of the place starts at this byte. The place is dropped here and not where it is made.
fn is_at(alloc: Global, class: u32, place: Place, want: Option<usize>) -> Result<bool, LexFault> {
    starts_at(alloc, class, &place, want)
}

fn starts_at(
    alloc: Global,
    class: u32,
    place: &Place,
    want: Option<usize>,
) -> Result<bool, LexFault> {
    let tokens = lex(alloc, PLACED.as_bytes())?;
    Ok(start_of(&tokens, locate(&tokens, class, place)) == want)
}

/// Numbers of classes, and the byte at which the class's token starts.
const CLASSES: &[(u32, Option<usize>)] = &[(0, Some(14)), (1, Some(89)), (2, None)];

#[test]
fn places_of_classes(rt: HostRuntime) -> Result<(), Fail> {
    for (class, want) in CLASSES {
        assert!(rt;
            is_at(rt.alloc(), *class, Place::Class, *want)?,
            "at {class}"
        );
    }
    assert!(rt; is_at(rt.alloc(), 0, Place::Project, None)?);
    Ok(())
}

/// Numbers of the fields of class 1, and the byte at which the field's token starts.
const FIELDS: &[(usize, Option<usize>)] = &[(0, Some(109)), (1, Some(114))];

/// Numbers of the methods of class 1, and the byte at which the method's token starts.
const METHODS: &[(usize, Option<usize>)] = &[
    (0, Some(138)),
    (1, Some(170)),
    (2, Some(197)),
    (3, None),
];

#[test]
fn places_of_fields(rt: HostRuntime) -> Result<(), Fail> {
    for (field, want) in FIELDS {
        assert!(rt;
            is_at(rt.alloc(), 1, Place::Field(*field), *want)?,
            "at {field}"
        );
    }
    Ok(())
}

#[test]
fn places_of_methods(rt: HostRuntime) -> Result<(), Fail> {
    for (method, want) in METHODS {
        assert!(rt;
            is_at(rt.alloc(), 1, Place::Method(*method), *want)?,
            "at {method}"
        );
    }
    Ok(())
}

/// The place of a file, or of a class in it.
fn in_file(alloc: Global, class: Option<usize>) -> Result<Place, AllocError> {
    let file = Name::new(alloc, "M.java")?;
    Ok(match class {
        Some(class) => Place::ClassOf(file, class),
        None => Place::File(file),
    })
}

#[test]
fn places_of_files(rt: HostRuntime) -> Result<(), Fail> {
    assert!(rt; is_at(rt.alloc(), 0, in_file(rt.alloc(), None)?, None)?);
    assert!(rt; is_at(rt.alloc(), 0, in_file(rt.alloc(), Some(1))?, Some(89))?);
    Ok(())
}

/// A phrase of a class: its method and mark, and the byte at which its token starts.
type Phrase<'a> = (u32, &'a str, usize, Option<usize>);

const PHRASES: &[Phrase] = &[
    (0, "main", 11, Some(56)),
    (0, "main", 17, Some(75)),
    (1, "f", 0, Some(117)),
    (1, "f", 4, Some(138)),
    (1, "g", 7, Some(183)),
    (1, "h", 0, None),
];

fn inside(alloc: Global, method: &str, mark: usize) -> Result<Place, Fail> {
    let name = Name::try_new(alloc, method)?.ok_or("a name")?;
    Ok(Place::Inside(name, mark))
}

fn is_inside(alloc: Global, phrase: &Phrase) -> Result<bool, Fail> {
    let (class, method, mark, want) = phrase;
    let place = inside(alloc, method, *mark)?;
    Ok(is_at(alloc, *class, place, *want)?)
}

#[test]
fn places_of_phrases(rt: HostRuntime) -> Result<(), Fail> {
    for phrase in PHRASES {
        assert!(rt; is_inside(rt.alloc(), phrase)?, "at {phrase:?}");
    }
    Ok(())
}
