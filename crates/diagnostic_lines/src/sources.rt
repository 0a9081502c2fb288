//! A project whose files are parsed once.
ghost use Rattle.std.specs.Prelude.{◌≡◌, ◌++◌, ◌∷◌, [], IfOk, IfSome, OnOk, option_map};
ghost use Rattle.mj_tree.specs.Views.{file_view};
ghost use Rattle.mj_classes.specs.Classes.{files_view};
ghost use Rattle.named_files.specs.Projects.{source_view, sources_view, IsProject};
ghost use Rattle.file_index.specs.Reading.{IsStop, tokens_or_none};
ghost use Rattle.mj_rules.specs.Sentences.{file_of, trees_of};

use file_index::{ReadFile, read_over};
use mj_lexer::{LexFault, Token, lex};
use mj_tree::FileTree;
use named_files::Project;
use std::alloc::{AllocError, Global};
use std::marker::Model;

/// A file with the byte of its error, if it is no sentence and the error has a place, and with its tokens, if they are
/// kept. Contracts see the file.
pub struct ReadText<'a> {
    file: &'a (String, Vec<u8>),
    tokens: Option<Vec<Token>>,
    stop: Option<usize>,
}

impl Drop for ReadText<'_> {
    fn drop(self) {
        let ReadText {
            file: _,
            tokens: _,
            stop: _,
        } = self;
    }
}

impl<'a> Model for ReadText<'a> {
    ghost use Rattle.std.specs.Prelude.{◌≡◌, IfSome};
    ghost use Rattle.named_files.specs.Projects.{SourceFile, source_view};
    ghost use Rattle.file_index.specs.Reading.{IsStop, tokens_or_none};

    ghost Value = { SourceFile };

    ghost view = { λ t. source_view t.file.now };

    ghost invariant = { λ t.
        IfSome t.tokens (λ ts. ts.items ≡ tokens_or_none (source_view t.file.now).bytes)
        × IsStop (source_view t.file.now).bytes t.stop };
}

impl<'a> ReadText<'a> {
    /// The file's name.
    pub fn name(&self) -> &'a str
        ensures { result.now ≡ self.now.name }
    {
        let (name, _) = self.file;
        name.as_str()
    }

    /// The file's bytes.
    pub fn bytes(&self) -> &'a [u8]
        ensures { result.now ≡ self.now.bytes }
    {
        let (_, bytes) = self.file;
        bytes.as_slice()
    }

    /// The file's tokens, if they are kept: none if it isn't cut into tokens.
    pub fn tokens(&self) -> Option<&[Token]>
        ensures { IfSome result (λ ts. ts.now ≡ tokens_or_none self.now.bytes) }
    {
        match &self.tokens {
            Some(tokens) => Some(tokens.as_slice()),
            None => None,
        }
    }

    /// The byte of the file's error, if it is no sentence.
    pub fn stop(&self) -> Option<usize>
        ensures { IsStop self.now.bytes result }
    {
        self.stop
    }

    /// The same file, with its tokens or without.
    pub fn with_tokens(&self, alloc: Global, are_kept: bool) -> Result<Self, AllocError>
        ensures { IfOk result (λ t. t ≡ self.now) }
    {
        let tokens = if are_kept {
            Some(cut(alloc, self.bytes())?)
        } else {
            None
        };
        Ok(ReadText {
            file: self.file,
            tokens,
            stop: self.stop,
        })
    }
}

/// The tokens of a text, none if it isn't cut into tokens.
pub fn cut(alloc: Global, text: &[u8]) -> Result<Vec<Token>, AllocError>
    ensures { IfOk result (λ ts. ts.items ≡ tokens_or_none text.now) }
{
    match lex(alloc, text) {
        Ok(tokens) => Ok(tokens),
        Err(LexFault::OutOfMemory) => Err(AllocError),
        Err(
            LexFault::BadByte(_)
            | LexFault::OpenComment(_)
            | LexFault::NameTooLong(_)
            | LexFault::FileTooLong,
        ) => Ok(Vec::new(alloc)),
    }
}

/// Reads a file: its text, its tree, if it is a sentence, and its tokens, in the room of this vector.
fn read_source<'a>(
    alloc: Global,
    file: &'a (String, Vec<u8>),
    room: Vec<Token>,
) -> Result<(ReadText<'a>, Option<FileTree>, Vec<Token>), AllocError>
    ensures text { IfOk result (λ r. r.0 ≡ source_view file.now) }
    ensures tree { IfOk result (λ r.
        option_map file_view r.1 ≡ file_of (source_view file.now).bytes) }
{
    let (_, bytes) = file;
    let found = read_over(alloc, bytes, room)?;
    let ReadFile { tokens, tree, stop } = found;
    let text = ReadText {
        file,
        tokens: None,
        stop,
    };
    Ok((text, tree, tokens))
}

/// Reads a file, and adds its text and its tree. Its tokens take the room of this vector, which is handed back for the
/// next file.
fn add_source<'a>(
    alloc: Global,
    file: &'a (String, Vec<u8>),
    room: Vec<Token>,
    texts: &mut Vec<ReadText<'a>>,
    trees: &mut Vec<Option<FileTree>>,
) -> Result<Vec<Token>, AllocError>
    ensures texts { OnOk result (texts.new.items ≡ texts.old.items ++ source_view file.now ∷ []) }
    ensures trees { OnOk result (files_view trees.new.items
        ≡ files_view trees.old.items ++ file_of (source_view file.now).bytes ∷ []) }
{
    texts.reserve(1)?;
    trees.reserve(1)?;
    let (text, tree, tokens) = read_source(alloc, file, room)?;
    texts.push_reserved(text);
    trees.push_reserved(tree);
    Ok(tokens)
}

/// Reads these files, and adds their texts and their trees to lists that have none.
fn add_sources<'a>(
    alloc: Global,
    files: &'a [(String, Vec<u8>)],
    texts: &mut Vec<ReadText<'a>>,
    trees: &mut Vec<Option<FileTree>>,
) -> Result<Vec<Token>, AllocError>
    requires texts { texts.old.items ≡ [] }
    requires trees { trees.old.items ≡ [] }
    ensures texts { OnOk result (texts.new.items ≡ sources_view files.now) }
    ensures trees { OnOk result (files_view trees.new.items ≡ trees_of (sources_view files.now)) }
{
    let mut room = Vec::new(alloc);
    for file in files {
        room = add_source(alloc, file, room, texts, trees)?;
    }
    room.clear();
    Ok(room)
}

/// A project with the tree of each file, without its tokens. Contracts see the files.
pub struct ReadProject<'a> {
    texts: Vec<ReadText<'a>>,
    trees: Vec<Option<FileTree>>,
    /// The room of the files' tokens. It is kept as long as the trees: once so large a block is freed, glibc takes later
    /// ones from its heap, and when one of these is freed it joins all the small ones that are free.
    room: Vec<Token>,
}

impl Drop for ReadProject<'_> {
    fn drop(self) {
        let ReadProject {
            texts: _,
            trees: _,
            room: _,
        } = self;
    }
}

impl<'a> Model for ReadProject<'a> {
    ghost use Rattle.std.specs.Prelude.{◌≡◌, List};
    ghost use Rattle.mj_classes.specs.Classes.{files_view};
    ghost use Rattle.named_files.specs.Projects.{SourceFile, IsProject};
    ghost use Rattle.mj_rules.specs.Sentences.{trees_of};

    ghost Value = { List SourceFile };

    ghost view = { λ p. p.texts.items };

    ghost invariant = { λ p.
        IsProject p.texts.items × (files_view p.trees.items ≡ trees_of p.texts.items) };
}

impl<'a> ReadProject<'a> {
    /// Reads the files of a project.
    pub fn new(alloc: Global, project: &'a Project) -> Result<Self, AllocError>
        ensures { IfOk result (λ p. p ≡ project.now) }
    {
        let mut texts = Vec::new(alloc);
        let mut trees = Vec::new(alloc);
        let room = add_sources(alloc, project.files(), &mut texts, &mut trees)?;
        Ok(ReadProject { texts, trees, room })
    }

    /// The tree of each file, if it is a sentence.
    pub fn trees(&self) -> &[Option<FileTree>]
        ensures { files_view result.now ≡ trees_of self.now }
    {
        self.trees.as_slice()
    }

    /// What is kept of each file's text.
    pub(crate) fn texts(&self) -> &[ReadText<'a>]
        ensures texts { result.now ≡ self.now }
        ensures project { IsProject self.now }
    {
        self.texts.as_slice()
    }
}
