//! The files of a project, found by their names.
ghost use Rattle.std.specs.Prelude.{◌≡◌, ℕ, List, map, position, option_copied, slice_get, find, None, Some, All, IfOk, IfSome, OnOk};
ghost use Rattle.std.specs.Str.{bytes_eq};
ghost use Rattle.std.specs.BTreeMap.{get};
ghost use Rattle.std.specs.Cmp.Lexicographic.{slice_cmp};
ghost use Rattle.std.specs.Ordering.{nat_cmp};
ghost use Rattle.named_files.specs.Projects.{names_of, IsFileName};
ghost use Rattle.diagnostic_lines.specs.FaultLines.{place_in, file_named, IsStopPlace};

use crate::index::IndexedText;
use crate::places::SourcePlace;
use crate::sources::{ReadText, cut};
use file_index::LinedText;
use mj_tree::Place;
use ordered_names::Name;
use std::alloc::{AllocError, Global};
use std::collections::BTreeMap;
use std::marker::Model;

/// A file, with its index if its tokens are kept. Contracts see the file.
pub struct FileText<'a, 't> {
    text: &'t ReadText<'a>,
    index: Option<IndexedText<'a, 't>>,
}

impl Drop for FileText<'_, '_> {
    fn drop(self) {
        let FileText { text: _, index: _ } = self;
    }
}

impl<'a, 't> Model for FileText<'a, 't> {
    ghost use Rattle.std.specs.Prelude.{◌≡◌, IfSome};
    ghost use Rattle.named_files.specs.Projects.{SourceFile};

    ghost Value = { SourceFile };

    ghost view = { λ t. t.text.now };

    ghost invariant = { λ t. IfSome t.index (λ index. index ≡ t.text.now) };
}

impl<'a, 't> FileText<'a, 't> {
    /// The file that was read.
    fn new(alloc: Global, text: &'t ReadText<'a>) -> Result<Self, AllocError>
        ensures { IfOk result (λ t. t ≡ text.now) }
    {
        let index = match text.tokens() {
            Some(tokens) => Some(IndexedText::new(alloc, text, tokens)?),
            None => None,
        };
        Ok(FileText { text, index })
    }

    /// The file's name.
    pub fn name(&self) -> &'a str
        ensures { result.now ≡ self.now.name }
    {
        self.text.name()
    }

    /// What was read of the file.
    pub fn text(&self) -> &'t ReadText<'a>
        ensures { result.now ≡ self.now }
    {
        self.text
    }

    /// The file's index, if its tokens are kept.
    pub fn index(&self) -> Option<&IndexedText<'a, 't>>
        ensures { IfSome result (λ index. index.now ≡ self.now) }
    {
        match &self.index {
            Some(index) => Some(index),
            None => None,
        }
    }

    /// A place in the class with this number.
    pub fn place(
        &self,
        alloc: Global,
        class: usize,
        place: &Place,
    ) -> Result<Option<SourcePlace<'a>>, AllocError>
        ensures { IfOk result (λ at. at ≡ place_in self.now.bytes class place.now) }
    {
        match self.index() {
            Some(index) => Ok(index.place(class, place)),
            None => place_alone(alloc, self.text, class, place),
        }
    }

    /// The place of the file's error.
    pub fn stop(&self, alloc: Global) -> Result<Option<SourcePlace<'a>>, AllocError>
        ensures { IfOk result (IsStopPlace self.now.bytes) }
    {
        let Some(byte) = self.text.stop() else {
            return Ok(None);
        };
        let lines = LinedText::new(alloc, self.text.bytes())?;
        Ok(Some(SourcePlace::new(&lines, byte)))
    }
}

/// A place in the class with this number of a file, which is cut into tokens for it.
fn place_alone<'a>(
    alloc: Global,
    text: &ReadText<'a>,
    class: usize,
    place: &Place,
) -> Result<Option<SourcePlace<'a>>, AllocError>
    ensures { IfOk result (λ at. at ≡ place_in text.now.bytes class place.now) }
{
    let tokens = cut(alloc, text.bytes())?;
    let index = IndexedText::new(alloc, text, &tokens)?;
    Ok(index.place(class, place))
}

/// The files of a project, in order, found by their names too. Contracts see the files.
#[derive(Drop)]
pub struct Texts<'a, 't> {
    texts: Vec<FileText<'a, 't>>,
    numbers: &'t BTreeMap<Name, usize>,
}

impl<'a, 't> Model for Texts<'a, 't> {
    ghost use Rattle.std.specs.Prelude.{◌≡◌, ℕ, List, position};
    ghost use Rattle.std.specs.Str.{bytes_eq};
    ghost use Rattle.std.specs.BTreeMap.{get};
    ghost use Rattle.std.specs.Cmp.Lexicographic.{slice_cmp};
    ghost use Rattle.std.specs.Ordering.{nat_cmp};
    ghost use Rattle.named_files.specs.Projects.{SourceFile};

    ghost Value = { List SourceFile };

    ghost view = { λ t. t.texts.items };

    ghost invariant = { λ t. (name : List ℕ) → get (slice_cmp nat_cmp) t.numbers.now name
        ≡ position (λ f. bytes_eq f.name name) t.texts.items };
}

/// Each file, with its index if its tokens are kept.
fn index_texts<'a, 't>(
    alloc: Global,
    texts: &'t [ReadText<'a>],
) -> Result<Vec<FileText<'a, 't>>, AllocError>
    ensures { IfOk result (λ indexed. indexed.items ≡ texts.now) }
{
    let mut indexed = Vec::new(alloc);
    for text in texts {
        indexed.push(FileText::new(alloc, text)?)?;
    }
    Ok(indexed)
}

/// Adds the number of the first file of each name to a map that has none.
fn add_names(
    alloc: Global,
    texts: &[ReadText],
    numbers: &mut BTreeMap<Name, usize>,
) -> Result<(), AllocError>
    requires names { All IsFileName (names_of texts.now) }
    requires empty { (name : List ℕ) → get (slice_cmp nat_cmp) numbers.old name ≡ None }
    ensures { OnOk result ((name : List ℕ) → get (slice_cmp nat_cmp) numbers.new name
        ≡ position (λ f. bytes_eq f.name name) texts.now) }
{
    for (number, text) in texts.iter().enumerate() {
        let name = Name::new(alloc, text.name())?;
        if !numbers.contains_key(&name) {
            numbers.insert(name, number)?;
        }
    }
    Ok(())
}

/// The number of the first file of each name.
pub fn number_names(alloc: Global, texts: &[ReadText]) -> Result<BTreeMap<Name, usize>, AllocError>
    requires { All IsFileName (names_of texts.now) }
    ensures { IfOk result (λ numbers. (name : List ℕ) → get (slice_cmp nat_cmp) numbers name
        ≡ position (λ f. bytes_eq f.name name) texts.now) }
{
    let mut numbers = BTreeMap::new(alloc);
    add_names(alloc, texts, &mut numbers)?;
    Ok(numbers)
}

impl<'a, 't> Texts<'a, 't> {
    /// The files that were read, with their numbers.
    pub fn new(
        alloc: Global,
        texts: &'t [ReadText<'a>],
        numbers: &'t BTreeMap<Name, usize>,
    ) -> Result<Self, AllocError>
        requires { (name : List ℕ) → get (slice_cmp nat_cmp) numbers.now name
            ≡ position (λ f. bytes_eq f.name name) texts.now }
        ensures { IfOk result (λ t. t ≡ texts.now) }
    {
        let texts = index_texts(alloc, texts)?;
        Ok(Texts { texts, numbers })
    }

    /// The file with this number.
    pub fn get(&self, number: usize) -> Option<&FileText<'a, 't>>
        ensures { option_copied result ≡ slice_get self.now number }
    {
        self.texts.get(number)
    }

    /// The file of a name.
    pub fn named(&self, name: &Name) -> Option<&FileText<'a, 't>>
        ensures { option_copied result ≡ file_named self.now name.now }
    {
        let number = *self.numbers.get(name)?;
        self.get(number)
    }
}
