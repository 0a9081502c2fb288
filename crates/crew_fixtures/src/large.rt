//! Projects of many classes.
ghost use Rattle.std.specs.Prelude.{◌≡◌, [], ◌∷◌, codes, IfOk};
ghost use Rattle.named_files.specs.Projects.{names_of, sources_view};

use crate::files::project_with;
use answer_fixtures::Unfit;
use named_files::Project;
use std::alloc::{AllocError, Global};

/// A class that prints a number.
const MAIN: &str = "class M { public static void main(String[] a) { System.out.println(1); } }\n";

/// So many classes without members, whose names have three digits and more.
fn empty_text(alloc: Global, classes: usize) -> Result<String, AllocError> {
    let mut text = String::new(alloc);
    for at in 0..classes {
        let class = format!(in alloc; "class C{at:03} {{ }}\n")?;
        text.push_str(class.as_str())?;
    }
    Ok(text)
}

/// One file of this text.
fn files_of(alloc: Global, text: String) -> Result<Vec<(String, Vec<u8>)>, AllocError>
    ensures { IfOk result (λ files.
        names_of (sources_view files.items) ≡ codes "M.java" ∷ []) }
{
    let mut files = Vec::new(alloc);
    let name = String::from_str(alloc, "M.java")?;
    files.push((name, text.into_bytes()))?;
    Ok(files)
}

/// Two files of these texts.
fn two_files_of(
    alloc: Global,
    first: String,
    second: String,
) -> Result<Vec<(String, Vec<u8>)>, AllocError>
    ensures { IfOk result (λ files.
        names_of (sources_view files.items) ≡ codes "M.java" ∷ codes "c.java" ∷ []) }
{
    let mut files = files_of(alloc, first)?;
    let name = String::from_str(alloc, "c.java")?;
    files.push((name, second.into_bytes()))?;
    Ok(files)
}

/// The project of one file of this text.
fn project_of_text(alloc: Global, text: String) -> Result<Project, Unfit>
    ensures { IfOk result (λ p. names_of p ≡ codes "M.java" ∷ []) }
{
    let files = files_of(alloc, text)?;
    let project = project_with(alloc, files)?;
    Ok(project)
}

/// So many classes of a field and a method, each of which extends the one before it, but for the first and the one of this
/// number.
fn chain_text(alloc: Global, classes: usize, cut: Option<usize>) -> Result<String, AllocError> {
    let mut text = String::from_str(alloc, MAIN)?;
    add_root(alloc, &mut text, 0)?;
    for at in 1..classes {
        if cut == Some(at) {
            add_root(alloc, &mut text, at)?;
        } else {
            add_link(alloc, &mut text, at)?;
        }
    }
    Ok(text)
}

/// Adds a class that extends no other.
fn add_root(alloc: Global, text: &mut String, at: usize) -> Result<(), AllocError> {
    let root = format!(in alloc;
        "class C{at} {{ int x{at}; public int f{at}() {{ return x{at}; }} }}\n"
    )?;
    text.push_str(root.as_str())
}

/// Adds a class that extends the one before it.
fn add_link(alloc: Global, text: &mut String, at: usize) -> Result<(), AllocError> {
    let before = at.saturating_sub(1);
    let link = format!(in alloc;
        "class C{at} extends C{before} {{ int x{at}; public int f{at}() {{ return x{before}; }} }}\n"
    )?;
    text.push_str(link.as_str())
}

/// So many classes of a method, and one whose body makes an object of each.
fn body_text(alloc: Global, classes: usize) -> Result<String, AllocError> {
    let mut text = String::from_str(alloc, MAIN)?;
    for at in 0..classes {
        let class = format!(in alloc; "class C{at} {{ public int f() {{ return {at}; }} }}\n")?;
        text.push_str(class.as_str())?;
    }
    text.push_str("class All { public int all() { int x;\n")?;
    for at in 0..classes {
        let statement = format!(in alloc; "x = new C{at}().f();\n")?;
        text.push_str(statement.as_str())?;
    }
    text.push_str("return x; } }\n")?;
    Ok(text)
}

/// The project of so many classes of a field and a method, each of which extends the one before it.
pub fn chain(alloc: Global, classes: usize) -> Result<Project, Unfit>
    ensures { IfOk result (λ p. names_of p ≡ codes "M.java" ∷ []) }
{
    let text = chain_text(alloc, classes, None)?;
    project_of_text(alloc, text)
}

/// The same project, but that the class of this number extends none.
pub(crate) fn cut_chain(alloc: Global, classes: usize, cut: usize) -> Result<Project, Unfit>
    ensures { IfOk result (λ p. names_of p ≡ codes "M.java" ∷ []) }
{
    let text = chain_text(alloc, classes, Some(cut))?;
    project_of_text(alloc, text)
}

/// The project of so many classes of a method, and one whose body makes an object of each.
pub fn one_body(alloc: Global, classes: usize) -> Result<Project, Unfit>
    ensures { IfOk result (λ p. names_of p ≡ codes "M.java" ∷ []) }
{
    let text = body_text(alloc, classes)?;
    project_of_text(alloc, text)
}

/// The project of a class that prints a number, in the one file, and of so many classes without members, in the other.
pub(crate) fn empty_classes(alloc: Global, classes: usize) -> Result<Project, Unfit>
    ensures { IfOk result (λ p. names_of p ≡ codes "M.java" ∷ codes "c.java" ∷ []) }
{
    let main = String::from_str(alloc, MAIN)?;
    let text = empty_text(alloc, classes)?;
    let files = two_files_of(alloc, main, text)?;
    Ok(project_with(alloc, files)?)
}
