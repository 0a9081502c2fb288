//! A file read once: its tokens, its tree, and where its error is.
ghost use Rattle.std.specs.Prelude.{◌≡◌, ◌≢◌, None, [], IfOk};
ghost use Rattle.mj_lexer.specs.declared.lexer.LexFault.TheVariants as lexing;
ghost use Rattle.mj_expressions.specs.declared.fault.ParseFault.TheVariants as parsing;
ghost use Rattle.file_index.specs.Reading.{IsReading, IsTreeOf, IsTokenStop, lexing_stop, token_start};

use mj_lexer::{LexFault, Token, lex_over};
use mj_parser::{ParseFault, parse};
use mj_tree::FileTree;
use std::alloc::{AllocError, Global};

/// What was read of a file's bytes.
#[derive(Drop)]
pub struct ReadFile {
    /// Its tokens; none if the bytes aren't cut into tokens.
    pub tokens: Vec<Token>,
    /// Its tree, if the bytes are a sentence.
    pub tree: Option<FileTree>,
    /// The byte where the error is reported, if the bytes are no sentence and the error has a place.
    pub stop: Option<usize>,
}

/// The byte of a lexical error. A file that is too long has none.
fn lexing_stop(fault: LexFault) -> Result<Option<usize>, AllocError>
    ensures { IfOk result (λ stop. (stop ≡ lexing_stop fault) × (fault ≢ lexing.OutOfMemory)) }
{
    match fault {
        LexFault::OutOfMemory => Err(AllocError),
        LexFault::BadByte(at) | LexFault::OpenComment(at) | LexFault::NameTooLong(at) => Ok(Some(
            at,
        )),
        LexFault::FileTooLong => Ok(None),
    }
}

/// What is read of a text that isn't cut into tokens.
fn without_tokens(alloc: Global, fault: LexFault) -> Result<ReadFile, AllocError>
    ensures tokens { IfOk result (λ file. file.tokens.items ≡ []) }
    ensures tree { IfOk result (λ file. file.tree ≡ None) }
    ensures stop { IfOk result (λ file. file.stop ≡ lexing_stop fault) }
    ensures memory { IfOk result (λ _. fault ≢ lexing.OutOfMemory) }
{
    let stop = lexing_stop(fault)?;
    Ok(ReadFile {
        tokens: Vec::new(alloc),
        tree: None,
        stop,
    })
}

/// The byte at which the token with this number begins, or the end of the text.
fn token_start(tokens: &[Token], number: usize, end: usize) -> usize
    ensures { result ≡ token_start tokens.now end number }
{
    match tokens.get(number) {
        Some(token) => token.start,
        None => end,
    }
}

/// The byte of a syntax error in a text of this length. A phrase that is too deep has no place.
fn parsing_stop(
    fault: ParseFault,
    tokens: &[Token],
    end: usize,
) -> Result<Option<usize>, AllocError>
    ensures stop { IfOk result (IsTokenStop tokens.now end) }
    ensures memory { IfOk result (λ _. fault ≢ parsing.OutOfMemory) }
{
    match fault {
        ParseFault::OutOfMemory => Err(AllocError),
        ParseFault::TooDeep => Ok(None),
        ParseFault::NotAFile(number) => Ok(Some(token_start(tokens, number, end))),
    }
}

/// The tree of the tokens of a text of this length.
fn read_tokens(alloc: Global, tokens: Vec<Token>, end: usize) -> Result<ReadFile, AllocError>
    ensures tokens { IfOk result (λ file. file.tokens ≡ tokens) }
    ensures tree { IfOk result (λ file. IsTreeOf tokens.items file.tree) }
    ensures stop { IfOk result (λ file. IsTokenStop tokens.items end file.stop) }
{
    match parse(alloc, &tokens) {
        Ok(tree) => Ok(ReadFile {
            tokens,
            tree: Some(tree),
            stop: None,
        }),
        Err(fault) => {
            let stop = parsing_stop(fault, &tokens, end)?;
            Ok(ReadFile {
                tokens,
                tree: None,
                stop,
            })
        }
    }
}

/// Reads a file's bytes.
pub fn read(alloc: Global, bytes: &[u8]) -> Result<ReadFile, AllocError>
    ensures { IfOk result (IsReading bytes.now) }
{
    read_over(alloc, bytes, Vec::new(alloc))
}

/// Reads a file's bytes, and puts its tokens in place of those of a vector, whose room they take.
pub fn read_over(alloc: Global, bytes: &[u8], room: Vec<Token>) -> Result<ReadFile, AllocError>
    ensures { IfOk result (IsReading bytes.now) }
{
    match lex_over(alloc, bytes, room) {
        Ok(tokens) => read_tokens(alloc, tokens, bytes.len()),
        Err(fault) => without_tokens(alloc, fault),
    }
}
