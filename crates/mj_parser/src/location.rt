//! The tokens of places.
ghost use Rattle.std.specs.Prelude.{◌≡◌, ◌<◌, ◌≤◌, ◌+◌, length, IfSome, slice_get};
ghost use Rattle.mj_parser.specs.Locations.{all_of, existing, class_start, class_end, class_name, field_name, method_name, method_start, name_of_method, token_of};

use mj_expressions::{has, name};
use mj_lexer::{Terminal, Token};
use mj_tree::Place;
use ordered_names::Name;

/// The place of the terminal with this number among those from `start` to before `end`.
#[tactic(auto, using(crate::proofs::Locations::none_left, crate::proofs::Locations::here, crate::proofs::Locations::one_less, crate::proofs::Locations::passes))]
fn nth(
    tokens: &[Token],
    start: usize,
    end: usize,
    terminal: Terminal,
    number: usize,
) -> Option<usize>
    ensures value { result ≡ slice_get (all_of tokens.now terminal start end) number }
    ensures within { IfSome result (λ at. at < length tokens.now) }
{
    let mut left = number;
    for at in start..end {
        if has(tokens, at, terminal) {
            if left == 0 {
                return Some(at);
            }
            left -= 1;
        }
    }
    None
}

/// The place of a class's word `class`.
fn class_start(tokens: &[Token], class: usize) -> Option<usize>
    ensures value { result ≡ class_start tokens.now class }
    ensures within { IfSome result (λ at. at < length tokens.now) }
{
    nth(tokens, 0, tokens.len(), Terminal::Class, class)
}

/// The place after the class that begins at a place.
fn class_end(tokens: &[Token], start: usize) -> usize
    requires { start < length tokens.now }
    ensures value { result ≡ class_end tokens.now start }
    ensures within { result ≤ length tokens.now }
{
    match nth(tokens, start + 1, tokens.len(), Terminal::Class, 0) {
        Some(next) => next,
        None => tokens.len(),
    }
}

/// The place of the name of the method whose `public` stands at a place, or of the word `main`.
pub fn method_name(tokens: &[Token], start: usize) -> usize
    requires { start < length tokens.now }
    ensures value { result ≡ method_name tokens.now start }
    ensures within { result ≤ start + 4 }
{
    if has(tokens, start + 1, Terminal::Static) {
        start + 3
    } else if has(tokens, start + 2, Terminal::LeftBracket) {
        start + 4
    } else {
        start + 2
    }
}

/// A place, if a token stands there.
fn existing(tokens: &[Token], at: usize) -> Option<usize>
    ensures value { result ≡ existing tokens.now at }
    ensures within { IfSome result (λ place. place < length tokens.now) }
{
    if at < tokens.len() { Some(at) } else { None }
}

/// The place of a class's name.
fn class_name(tokens: &[Token], class: usize) -> Option<usize>
    ensures value { result ≡ class_name tokens.now class }
    ensures within { IfSome result (λ at. at < length tokens.now) }
{
    let start = class_start(tokens, class)?;
    existing(tokens, start + 1)
}

/// The place of a field's name, which stands before its semicolon.
fn field_name(tokens: &[Token], class: usize, number: usize) -> Option<usize>
    ensures value { result ≡ field_name tokens.now class number }
    ensures within { IfSome result (λ at. at < length tokens.now) }
{
    let start = class_start(tokens, class)?;
    let end = class_end(tokens, start);
    let semicolon = nth(tokens, start, end, Terminal::Semicolon, number)?;
    semicolon.checked_sub(1)
}

/// The place of the `public` of a class's first method of a name, or of its `main`.
#[tactic(auto, using(crate::proofs::Locations::methods_end, crate::proofs::Locations::method_found, crate::proofs::Locations::other_method, crate::proofs::Locations::nameless, crate::proofs::Locations::not_public))]
fn method_start(tokens: &[Token], class: usize, method: &Name) -> Option<usize>
    ensures value { result ≡ method_start tokens.now class method.now }
    ensures within { IfSome result (λ at. at < length tokens.now) }
{
    let start = class_start(tokens, class)?;
    let end = class_end(tokens, start);
    for at in start..end {
        if has(tokens, at, Terminal::Public) {
            if let Some(found) = name(tokens, method_name(tokens, at)) {
                if found == method {
                    return Some(at);
                }
            }
        }
    }
    None
}

/// The place of the name of a class's method, or of `main`.
fn name_of_method(tokens: &[Token], class: usize, number: usize) -> Option<usize>
    ensures value { result ≡ name_of_method tokens.now class number }
    ensures within { IfSome result (λ at. at < length tokens.now) }
{
    let start = class_start(tokens, class)?;
    let end = class_end(tokens, start);
    let method = nth(tokens, start, end, Terminal::Public, number)?;
    existing(tokens, method_name(tokens, method))
}

/// The token of a place in the class with this number, or `None` for a whole file or project. Classes are numbered from
/// 0, the main class first. The tokens are those of a file.
pub fn locate(tokens: &[Token], class: u32, place: &Place) -> Option<usize>
    ensures value { result ≡ token_of tokens.now class place.now }
    ensures within { IfSome result (λ at. at < length tokens.now) }
{
    let class = class as usize;
    match place {
        Place::Project | Place::File(_) => None,
        Place::ClassOf(_, number) => class_name(tokens, *number),
        Place::Class => class_name(tokens, class),
        Place::Field(number) => field_name(tokens, class, *number),
        Place::Method(number) => name_of_method(tokens, class, *number),
        Place::Inside(method, token) => {
            let start = method_start(tokens, class, method)?;
            existing(tokens, start.checked_add(*token)?)
        }
    }
}
