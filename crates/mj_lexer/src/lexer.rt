//! A text cut into tokens.
ghost use Rattle.std.specs.Prelude.{◌≡◌, ◌⊎◌, List, IfOk, IfErr, MatchResult, ◌≢◌};
ghost use Rattle.mj_lexer.specs.Lexes.{Lexes, Breaks, fault_at};
ghost use Rattle.mj_lexer.specs.Lexing.{lexing_of};
ghost use Rattle.mj_lexer.specs.declared.token.Token.{Token};
ghost use Rattle.mj_lexer.specs.declared.lexer.LexFault.{LexFault};
ghost use Rattle.mj_lexer.specs.declared.lexer.LexFault.TheVariants.{OutOfMemory};

use crate::front::{Front, Problem, read_front};
use crate::token::Token;
use std::alloc::{AllocError, AllocFailed, Global};
use thiserror::Error;

/// The most bytes of a text.
const LIMIT: usize = 1048576;

/// Why a text isn't cut into tokens. A place is the number of a byte, counted from 0.
#[derive(Clone, Copy, Debug, PartialEq, Eq, Error)]
pub enum LexFault {
    /// A byte that begins no token, white space or comment.
    #[error("byte {0} begins no token")]
    BadByte(usize),
    /// A comment that isn't closed, by the first byte of its outermost opening.
    #[error("the comment at byte {0} isn't closed")]
    OpenComment(usize),
    /// A name of more than 255 bytes, by its first byte.
    #[error("the name at byte {0} has more than 255 bytes")]
    NameTooLong(usize),
    /// A text of more than 1,048,576 bytes.
    #[error("the text has more than 1048576 bytes")]
    FileTooLong,
    /// An allocation was refused.
    #[error("out of memory")]
    OutOfMemory,
}

impl From<AllocError> for LexFault {
    ghost use Rattle.mj_lexer.specs.declared.lexer.LexFault.TheVariants.{OutOfMemory};

    ghost from_gives = { λ _ e. e ≡ OutOfMemory };

    fn from(_: AllocError) -> Self {
        LexFault::OutOfMemory
    }
}

impl<T: Drop> From<AllocFailed<T>> for LexFault {
    ghost use Rattle.mj_lexer.specs.declared.lexer.LexFault.TheVariants.{OutOfMemory};

    ghost from_gives = { λ _ e. e ≡ OutOfMemory };

    fn from(_: AllocFailed<T>) -> Self {
        LexFault::OutOfMemory
    }
}

/// The error for a problem at a place.
fn fault(problem: Problem, at: usize) -> LexFault
    ensures { result ≡ fault_at problem at }
{
    match problem {
        Problem::Byte => LexFault::BadByte(at),
        Problem::Comment => LexFault::OpenComment(at),
        Problem::Name => LexFault::NameTooLong(at),
    }
}

/// The tokens from the front of the text to its end, in the room of this vector.
fn tokens(alloc: Global, text: &[u8], room: Vec<Token>) -> Result<Vec<Token>, LexFault>
    ensures found { IfOk result (λ v. Lexes text.now v.items) }
    ensures fault { IfErr result (λ e. e ≢ OutOfMemory → Breaks text.now e) }
{
    if text.len() > LIMIT {
        return Err(LexFault::FileTooLong);
    }
    let mut tokens = room;
    tokens.clear();
    let mut at = 0;
    loop {
        let here = read_front(alloc, &text[at..])?;
        match here {
            Front::Nothing => return Ok(tokens),
            Front::Blank(n) => at += n,
            Front::Word(kind, n) => {
                tokens.push(Token {
                    kind,
                    start: at,
                    end: at + n,
                })?;
                at += n;
            }
            Front::Wrong(problem) => return Err(fault(problem, at)),
        }
    }
}

/// The tokens of a text, from the left.
///
/// A text that is too long is refused as such; any other by its first error from the left.
pub fn lex(alloc: Global, text: &[u8]) -> Result<Vec<Token>, LexFault>
    ensures found { IfOk result (λ v. Lexes text.now v.items) }
    ensures only { (others : List Token) → Lexes text.now others
        → MatchResult result (λ v. v.items ≡ others) (λ e. e ≡ OutOfMemory) }
    ensures fault { IfErr result (λ e. e ≢ OutOfMemory → Breaks text.now e) }
    ensures fault_only { (f : LexFault) → Breaks text.now f
        → MatchResult result (λ _. ⊥) (λ e. (e ≡ f) ⊎ (e ≡ OutOfMemory)) }

    // The same by the function that computes them.
    ensures tokens { IfOk result (λ v. lexing_of text.now ≡ Ok v.items) }
    ensures refusal { IfErr result (λ e. e ≢ OutOfMemory → lexing_of text.now ≡ Err e) }
{
    lex_over(alloc, text, Vec::new(alloc))
}

/// The same tokens, in place of those of a vector, whose room they take.
pub fn lex_over(alloc: Global, text: &[u8], room: Vec<Token>) -> Result<Vec<Token>, LexFault>
    ensures found { IfOk result (λ v. Lexes text.now v.items) }
    ensures only { (others : List Token) → Lexes text.now others
        → MatchResult result (λ v. v.items ≡ others) (λ e. e ≡ OutOfMemory) }
    ensures fault { IfErr result (λ e. e ≢ OutOfMemory → Breaks text.now e) }
    ensures fault_only { (f : LexFault) → Breaks text.now f
        → MatchResult result (λ _. ⊥) (λ e. (e ≡ f) ⊎ (e ≡ OutOfMemory)) }

    // The same by the function that computes them.
    ensures tokens { IfOk result (λ v. lexing_of text.now ≡ Ok v.items) }
    ensures refusal { IfErr result (λ e. e ≢ OutOfMemory → lexing_of text.now ≡ Err e) }
{
    tokens(alloc, text, room)
}
