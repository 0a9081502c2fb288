//! Tokens by their places.
ghost use Rattle.std.specs.Prelude.{◌≡◌, ◌+◌, ◌<◌, ◌≤◌, ◌↔◌, ◌^◌, ◌&&◌, if◌then◌else◌, IsTrue, IsSome, IfOk, IfErr, MatchOption, length, true, false, Some, None};
ghost use Rattle.mj_expressions.specs.Tokens.{same_terminal, kind_at, has, name_at, says};
ghost use Rattle.mj_expressions.specs.declared.fault.ParseFault.TheVariants.{NotAFile};

use crate::fault::ParseFault;
use mj_lexer::{Terminal, Token, TokenKind};
use ordered_names::Name;

/// What was read, and the place after it.
#[derive(Drop)]
pub struct Part<T: Drop> {
    pub tree: T,
    pub after: usize,
}

fn is_same(a: Terminal, b: Terminal) -> bool
    ensures { result ≡ same_terminal a b }
{
    a as u8 == b as u8
}

/// The kind of the token at a place.
pub fn kind(tokens: &[Token], at: usize) -> Option<&TokenKind>
    ensures value { MatchOption result (kind_at tokens.now at ≡ None)
        (λ k. kind_at tokens.now at ≡ Some k.now) }
    ensures within { IsSome result → at < length tokens.now }
{
    match tokens.get(at) {
        Some(token) => Some(&token.kind),
        None => None,
    }
}

/// Whether this symbol or reserved word stands at a place.
#[tactic(auto, unfolding(crate::specs::Tokens::has))]
pub fn has(tokens: &[Token], at: usize, terminal: Terminal) -> bool
    ensures value { result ≡ has tokens.now at terminal }
    ensures within { IsTrue result → at < length tokens.now }
{
    match kind(tokens, at) {
        Some(TokenKind::Terminal(other)) => is_same(terminal, *other),
        _ => false,
    }
}

/// The name at a place.
#[tactic(auto, unfolding(crate::specs::Tokens::name_at))]
pub fn name(tokens: &[Token], at: usize) -> Option<&Name>
    ensures value { MatchOption result (name_at tokens.now at ≡ None)
        (λ n. name_at tokens.now at ≡ Some n.now) }
    ensures within { IsSome result → at < length tokens.now }
{
    match kind(tokens, at) {
        Some(TokenKind::Identifier(name)) => Some(name),
        _ => None,
    }
}

/// Whether the name at a place is this word.
#[tactic(auto, unfolding(crate::specs::Tokens::says))]
pub fn says(tokens: &[Token], at: usize, word: &[u8]) -> bool
    ensures value { result ≡ says tokens.now at word.now }
    ensures within { IsTrue result → at < length tokens.now }
{
    match name(tokens, at) {
        Some(name) => name.bytes() == word,
        None => false,
    }
}

/// The place after a symbol or reserved word that has to stand here.
pub fn expect(tokens: &[Token], at: usize, terminal: Terminal) -> Result<usize, ParseFault>
    requires { at < 2 ^ 63 }
    ensures found { IfOk result (λ after.
        (has tokens.now at terminal ≡ true) × (after ≡ at + 1) × (after ≤ length tokens.now)) }
    ensures fault { IfErr result (λ e. (e ≡ NotAFile at) × (has tokens.now at terminal ≡ false)) }
{
    if has(tokens, at, terminal) {
        Ok(at + 1)
    } else {
        Err(ParseFault::NotAFile(at))
    }
}

/// The place after two symbols that have to stand here.
pub fn expect_two(
    tokens: &[Token],
    at: usize,
    first: Terminal,
    second: Terminal,
) -> Result<usize, ParseFault>
    requires { at < 2 ^ 62 }
    ensures found { IfOk result (λ after.
        ((has tokens.now at first && has tokens.now (at + 1) second) ≡ true) × (after ≡ at + 2)
        × (after ≤ length tokens.now)) }
    ensures fault { IfErr result (λ e.
        (e ≡ NotAFile (if has tokens.now at first then at + 1 else at))
        × ((has tokens.now at first && has tokens.now (at + 1) second) ≡ false)) }
{
    let after = expect(tokens, at, first)?;
    expect(tokens, after, second)
}

/// The place after a word that has to stand here.
pub fn expect_word(tokens: &[Token], at: usize, word: &[u8]) -> Result<usize, ParseFault>
    requires { at < 2 ^ 63 }
    ensures found { IfOk result (λ after.
        (says tokens.now at word.now ≡ true) × (after ≡ at + 1) × (after ≤ length tokens.now)) }
    ensures fault { IfErr result (λ e. (e ≡ NotAFile at) × (says tokens.now at word.now ≡ false)) }
{
    if says(tokens, at, word) {
        Ok(at + 1)
    } else {
        Err(ParseFault::NotAFile(at))
    }
}

/// The place after a word and a symbol that have to stand here.
pub fn expect_word_and(
    tokens: &[Token],
    at: usize,
    word: &[u8],
    terminal: Terminal,
) -> Result<usize, ParseFault>
    requires { at < 2 ^ 62 }
    ensures found { IfOk result (λ after.
        ((says tokens.now at word.now && has tokens.now (at + 1) terminal) ≡ true)
        × (after ≡ at + 2) × (after ≤ length tokens.now)) }
    ensures fault { IfErr result (λ e.
        (e ≡ NotAFile (if says tokens.now at word.now then at + 1 else at))
        × ((says tokens.now at word.now && has tokens.now (at + 1) terminal) ≡ false)) }
{
    let after = expect_word(tokens, at, word)?;
    expect(tokens, after, terminal)
}

/// The part, if this symbol or reserved word follows it, and the place after that.
pub fn followed<T: Drop>(
    tokens: &[Token],
    part: Part<T>,
    terminal: Terminal,
) -> Result<Part<T>, ParseFault>
    requires { part.after < 2 ^ 63 }
    ensures found { IfOk result (λ x.
        (has tokens.now part.after terminal ≡ true) × (x.tree ≡ part.tree) × (x.after ≡ part.after + 1)
        × (x.after ≤ length tokens.now)) }
    ensures fault { IfErr result (λ e.
        (e ≡ NotAFile part.after) × (has tokens.now part.after terminal ≡ false)) }
{
    let after = expect(tokens, part.after, terminal)?;
    Ok(Part {
        tree: part.tree,
        after,
    })
}

/// The part, if these two symbols follow it, and the place after them.
pub fn followed_by_two<T: Drop>(
    tokens: &[Token],
    part: Part<T>,
    first: Terminal,
    second: Terminal,
) -> Result<Part<T>, ParseFault>
    requires { part.after < 2 ^ 62 }
    ensures found { IfOk result (λ x.
        ((has tokens.now part.after first && has tokens.now (part.after + 1) second) ≡ true)
        × (x.tree ≡ part.tree) × (x.after ≡ part.after + 2) × (x.after ≤ length tokens.now)) }
    ensures fault { IfErr result (λ e.
        (e ≡ NotAFile (if has tokens.now part.after first then part.after + 1 else part.after))
        × ((has tokens.now part.after first && has tokens.now (part.after + 1) second) ≡ false)) }
{
    let after = expect_two(tokens, part.after, first, second)?;
    Ok(Part {
        tree: part.tree,
        after,
    })
}

/// The name that has to stand here.
pub fn expect_name(tokens: &[Token], at: usize) -> Result<&Name, ParseFault>
    ensures found { IfOk result (λ n.
        (name_at tokens.now at ≡ Some n.now) × (at < length tokens.now)) }
    ensures fault { IfErr result (λ e. (e ≡ NotAFile at) × (name_at tokens.now at ≡ None)) }
{
    match name(tokens, at) {
        Some(name) => Ok(name),
        None => Err(ParseFault::NotAFile(at)),
    }
}
