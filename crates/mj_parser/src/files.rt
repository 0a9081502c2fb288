//! Reading classes and the whole file.
ghost use Rattle.std.specs.Prelude.{◌≡◌, ℕ, ◌+◌, ◌<◌, ◌≤◌, ◌&&◌, codes, suc, length, drop, map, option_map, true, false, Some, None, IfOk, IfErr, IsTrue};
ghost use Rattle.mj_tree.specs.Views.{stmt_view, method_view, main_view, class_view, file_view};
ghost use Rattle.mj_lexer.specs.declared.token.Terminal.TheVariants as terminals;
ghost use Rattle.mj_expressions.specs.Tokens.{has, says};
ghost use Rattle.mj_parser.specs.Declarations.{main_head, main_head_fault, main_opening_fault, main_parameter, main_parameter_fault};
ghost use Rattle.mj_expressions.specs.Steps.{Finds, items_from};
ghost use Rattle.mj_parser.specs.FileReading.{field_at, begins_type, method_from, at_public, superclass_at, class_at, begins_main, main_method_at, main_from, main_named, main_at, main_part_at, before_end, tree_of};
ghost use Rattle.mj_expressions.specs.declared.fault.ParseFault.TheVariants.{NotAFile};

use crate::declarations::{local, method};
use crate::statements::statement;
use mj_expressions::{
    ParseFault, Part, expect, expect_name, expect_two, expect_word_and, followed_by_two, has, name,
};
use mj_lexer::{Terminal, Token};
use mj_tree::{ClassTree, Field, FileTree, MOST_LEVELS, MainTree, MethodTree, Stmt};
use ordered_names::Name;
use std::alloc::Global;

#[tactic(auto, unfolding(crate::specs::FileReading::field_at))]
fn field(alloc: Global, tokens: &[Token], at: usize) -> Result<Part<Field>, ParseFault>
    requires { at ≤ length tokens.now }
    ensures exact { Finds (λ x. (x.tree, x.after)) result (field_at tokens.now at) }
    ensures within { IfOk result (λ x. (at < x.after) × (x.after ≤ length tokens.now)) }
{
    let variable = local(alloc, tokens, at)?;
    Ok(Part {
        tree: Field {
            name: variable.tree.name,
            ty: variable.tree.ty,
        },
        after: variable.after,
    })
}

/// Whether a type begins here.
fn begins_type(tokens: &[Token], at: usize) -> bool
    ensures { result ≡ begins_type tokens.now at }
{
    has(tokens, at, Terminal::Int)
        || has(tokens, at, Terminal::Boolean)
        || name(tokens, at).is_some()
}

/// The fields of a class.
fn fields(alloc: Global, tokens: &[Token], at: usize) -> Result<Part<Vec<Field>>, ParseFault>
    requires { at ≤ length tokens.now }
    ensures exact { Finds (λ x. (x.tree.items, x.after)) result
        (items_from (suc (length tokens.now)) (field_at tokens.now) (begins_type tokens.now) at) }
    ensures within { IfOk result (λ x. (at ≤ x.after) × (x.after ≤ length tokens.now)) }
{
    let mut items = Vec::new(alloc);
    let mut after = at;
    'items: while begins_type(tokens, after) {
        let next = field(alloc, tokens, after)?;
        items.push(next.tree)?;
        after = next.after;
    }
    Ok(Part { tree: items, after })
}

/// The method that begins at a place.
fn method_at(alloc: Global, tokens: &[Token], at: usize) -> Result<Part<MethodTree>, ParseFault>
    requires { at ≤ length tokens.now }
    ensures exact { Finds (λ x. (method_view x.tree, x.after)) result (method_from tokens.now at) }
    ensures within { IfOk result (λ x. (at < x.after) × (x.after ≤ length tokens.now)) }
{
    match method(alloc, &tokens[at..]) {
        Ok(method) => Ok(Part {
            tree: method.tree,
            after: at + method.after,
        }),
        Err(fault) => Err(fault.behind(at)),
    }
}

/// The methods of a class.
fn methods(alloc: Global, tokens: &[Token], at: usize) -> Result<Part<Vec<MethodTree>>, ParseFault>
    requires { at ≤ length tokens.now }
    ensures exact { Finds (λ x. (map method_view x.tree.items, x.after)) result
        (items_from (suc (length tokens.now)) (method_from tokens.now) (at_public tokens.now)
        at) }
    ensures within { IfOk result (λ x. (at ≤ x.after) × (x.after ≤ length tokens.now)) }
{
    let mut items = Vec::new(alloc);
    let mut after = at;
    'items: while has(tokens, after, Terminal::Public) {
        let next = method_at(alloc, tokens, after)?;
        items.push(next.tree)?;
        after = next.after;
    }
    Ok(Part { tree: items, after })
}

/// `extends` and a name, or nothing.
#[tactic(auto, unfolding(crate::specs::FileReading::superclass_at))]
fn superclass(alloc: Global, tokens: &[Token], at: usize) -> Result<Part<Option<Name>>, ParseFault>
    requires { at ≤ length tokens.now }
    ensures exact { Finds (λ x. (x.tree, x.after)) result (superclass_at tokens.now at) }
    ensures within { IfOk result (λ x. (at ≤ x.after) × (x.after ≤ length tokens.now)) }
{
    if !has(tokens, at, Terminal::Extends) {
        return Ok(Part {
            tree: None,
            after: at,
        });
    }
    let name = expect_name(tokens, at + 1)?;
    Ok(Part {
        tree: Some(name.copy(alloc)?),
        after: at + 2,
    })
}

#[tactic(auto, unfolding(crate::specs::FileReading::class_at))]
fn class(alloc: Global, tokens: &[Token], at: usize) -> Result<Part<ClassTree>, ParseFault>
    requires { at ≤ length tokens.now }
    ensures exact { Finds (λ x. (class_view x.tree, x.after)) result (class_at tokens.now at) }
    ensures within { IfOk result (λ x. (at < x.after) × (x.after ≤ length tokens.now)) }
{
    let after = expect(tokens, at, Terminal::Class)?;
    let name = expect_name(tokens, after)?;
    let superclass = superclass(alloc, tokens, at + 2)?;
    let after = expect(tokens, superclass.after, Terminal::LeftBrace)?;
    let fields = fields(alloc, tokens, after)?;
    let methods = methods(alloc, tokens, fields.after)?;
    let after = expect(tokens, methods.after, Terminal::RightBrace)?;
    Ok(Part {
        tree: ClassTree {
            name: name.copy(alloc)?,
            superclass: superclass.tree,
            fields: fields.tree,
            methods: methods.tree,
        },
        after,
    })
}

/// The classes up to the end.
fn classes(alloc: Global, tokens: &[Token], at: usize) -> Result<Part<Vec<ClassTree>>, ParseFault>
    requires { at ≤ length tokens.now }
    ensures exact { Finds (λ x. (map class_view x.tree.items, x.after)) result
        (items_from (suc (length tokens.now)) (class_at tokens.now) (before_end tokens.now) at) }
    ensures within { IfOk result (λ x. (at ≤ x.after) × (x.after ≡ length tokens.now)) }
{
    let mut items = Vec::new(alloc);
    let mut after = at;
    'items: while after < tokens.len() {
        let next = class(alloc, tokens, after)?;
        items.push(next.tree)?;
        after = next.after;
    }
    Ok(Part { tree: items, after })
}

/// The place after `public static void main (`.
fn expect_main_head(tokens: &[Token]) -> Result<usize, ParseFault>
    ensures found { IfOk result (λ after.
        (main_head tokens.now ≡ true) × (after ≡ 5) × (after ≤ length tokens.now)) }
    ensures fault { IfErr result (λ e.
        (main_head tokens.now ≡ false) × (e ≡ NotAFile (main_head_fault tokens.now))) }
{
    let after = expect_two(tokens, 0, Terminal::Public, Terminal::Static)?;
    let after = expect(tokens, after, Terminal::Void)?;
    expect_word_and(tokens, after, b"main".as_slice(), Terminal::LeftParenthesis)
}

/// The place after `id ) {`, behind `String [ ]`.
fn expect_parameter_end(tokens: &[Token]) -> Result<usize, ParseFault>
    requires { (says tokens.now 5 (codes "String") && has tokens.now 6 terminals.LeftBracket
        && has tokens.now 7 terminals.RightBracket) ≡ true }
    ensures found { IfOk result (λ after.
        (main_parameter tokens.now ≡ true) × (after ≡ 11) × (after ≤ length tokens.now)) }
    ensures fault { IfErr result (λ e.
        (main_parameter tokens.now ≡ false)
        × (e ≡ NotAFile (main_parameter_fault tokens.now))) }
{
    expect_name(tokens, 8)?;
    expect_two(tokens, 9, Terminal::RightParenthesis, Terminal::LeftBrace)
}

/// The place after `String [ ] id ) {`.
fn expect_main_parameter(tokens: &[Token]) -> Result<usize, ParseFault>
    ensures found { IfOk result (λ after.
        (main_parameter tokens.now ≡ true) × (after ≡ 11) × (after ≤ length tokens.now)) }
    ensures fault { IfErr result (λ e.
        (main_parameter tokens.now ≡ false)
        × (e ≡ NotAFile (main_parameter_fault tokens.now))) }
{
    let after = expect_word_and(tokens, 5, b"String".as_slice(), Terminal::LeftBracket)?;
    expect(tokens, after, Terminal::RightBracket)?;
    expect_parameter_end(tokens)
}

/// The statement of `main`, which the tokens begin with, and the end of the main class.
#[tactic(auto, unfolding(crate::specs::FileReading::main_method_at))]
fn main_method(alloc: Global, tokens: &[Token]) -> Result<Part<Stmt>, ParseFault>
    ensures exact { Finds (λ x. (stmt_view x.tree, x.after)) result (main_method_at tokens.now) }
    ensures within { IfOk result (λ x. x.after ≤ length tokens.now) }
{
    expect_main_head(tokens)?;
    let inside = expect_main_parameter(tokens)?;
    let statement = statement(alloc, tokens, inside, MOST_LEVELS)?;
    followed_by_two(
        tokens,
        statement,
        Terminal::RightBrace,
        Terminal::RightBrace,
    )
}

/// The statement of a main class whose `main` begins at place 3.
fn main_statement(alloc: Global, tokens: &[Token]) -> Result<Part<Stmt>, ParseFault>
    requires { 3 ≤ length tokens.now }
    ensures exact { Finds (λ x. (stmt_view x.tree, x.after)) result (main_from tokens.now) }
    ensures within { IfOk result (λ x. x.after ≤ length tokens.now) }
{
    match main_method(alloc, &tokens[3..]) {
        Ok(statement) => Ok(Part {
            tree: statement.tree,
            after: 3 + statement.after,
        }),
        Err(fault) => Err(fault.behind(3)),
    }
}

/// The name between the main class's `class` and its brace.
#[tactic(auto, unfolding(crate::specs::FileReading::main_at))]
fn expect_main_name(tokens: &[Token]) -> Result<&Name, ParseFault>
    ensures found { IfOk result (λ n.
        (main_at tokens.now ≡ main_named tokens.now n.now) × (3 ≤ length tokens.now)) }
    ensures fault { IfErr result (λ e.
        (main_at tokens.now ≡ None) × (e ≡ NotAFile (main_opening_fault tokens.now))) }
{
    let after = expect(tokens, 0, Terminal::Class)?;
    let name = expect_name(tokens, after)?;
    expect(tokens, 2, Terminal::LeftBrace)?;
    Ok(name)
}

fn main_class(alloc: Global, tokens: &[Token]) -> Result<Part<MainTree>, ParseFault>
    ensures exact { Finds (λ x. (main_view x.tree, x.after)) result (main_at tokens.now) }
    ensures within { IfOk result (λ x. x.after ≤ length tokens.now) }
{
    let name = expect_main_name(tokens)?.copy(alloc)?;
    let statement = main_statement(alloc, tokens)?;
    Ok(Part {
        tree: MainTree {
            name,
            statement: statement.tree,
        },
        after: statement.after,
    })
}

/// Whether the first class is the main class.
fn begins_main(tokens: &[Token]) -> bool
    ensures { result ≡ begins_main tokens.now }
{
    has(tokens, 2, Terminal::LeftBrace)
        && has(tokens, 3, Terminal::Public)
        && has(tokens, 4, Terminal::Static)
}

#[tactic(auto, unfolding(crate::specs::FileReading::main_part_at))]
fn main_part(alloc: Global, tokens: &[Token]) -> Result<Part<Option<MainTree>>, ParseFault>
    ensures exact { Finds (λ x. (option_map main_view x.tree, x.after)) result
        (main_part_at tokens.now) }
    ensures within { IfOk result (λ x. x.after ≤ length tokens.now) }
{
    if !begins_main(tokens) {
        return Ok(Part {
            tree: None,
            after: 0,
        });
    }
    let main = main_class(alloc, tokens)?;
    Ok(Part {
        tree: Some(main.tree),
        after: main.after,
    })
}

/// The file that the tokens are.
#[tactic(auto, unfolding(crate::specs::FileReading::tree_of))]
pub fn file(alloc: Global, tokens: &[Token]) -> Result<FileTree, ParseFault>
    ensures { Finds file_view result (tree_of tokens.now) }
{
    let main = main_part(alloc, tokens)?;
    let classes = classes(alloc, tokens, main.after)?;
    Ok(FileTree {
        main: main.tree,
        classes: classes.tree,
    })
}
