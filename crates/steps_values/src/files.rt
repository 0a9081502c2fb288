//! What is known of the project's files.
ghost use Rattle.std.specs.Prelude.{◌≡◌, ◌<◌, ◌≤◌, ◌++◌, List, ℕ, [], length, OnOk};
ghost use Rattle.named_files.specs.Projects.{most_files};
ghost use Rattle.byte_readers.specs.Spelling.{name, list};
ghost use Rattle.byte_readers.specs.Reading.{Decodes, name_at, list_from};
ghost use Rattle.steps_values.specs.Storable.{AreDistinctNames, FileNamesFit, TextFits};
ghost use Rattle.steps_values.specs.Reading.{is_new, file_names_at};

use byte_readers::{
    Breach, Format, NameFormat, ReadError, check_list, not_canonical, put_eight, put_list,
    read_eight, read_name_text,
};
use named_files::Project;
use ordered_names::Name;
use std::alloc::{AllocError, Global};
use std::collections::BTreeSet;
use std::marker::Model;

/// The names of a project's files in their order: 1 to 4,096 names that differ.
pub struct FileNames {
    names: Vec<Name>,
}

impl Drop for FileNames {
    fn drop(self) {
        let FileNames { names: _ } = self;
    }
}

impl Model for FileNames {
    ghost use Rattle.std.specs.Prelude.{ℕ, List};
    ghost use Rattle.steps_values.specs.Storable.{FileNamesFit};

    ghost Value = { List (List ℕ) };

    ghost view = { λ files. files.names.items };

    ghost invariant = { λ files. FileNamesFit files.names.items };
}

impl FileNames {
    /// These names.
    #[tactic(auto, using(byte_readers::specs::Laws::all_storable))]
    pub fn new(names: Vec<Name>) -> Self
        requires some { 0 < length names.items }
        requires few { length names.items ≤ most_files }
        requires distinct { AreDistinctNames names.items }
        ensures { result ≡ names.items }
    {
        // What the spelling demands of the parts they keep in their types.
        check_list::<NameFormat>(&names);
        FileNames { names }
    }

    /// The names.
    pub fn names(&self) -> &[Name]
        ensures value { result.now ≡ self.now }
        ensures fits { FileNamesFit self.now }
    {
        self.names.as_slice()
    }
}

/// Writes the names of the files.
pub fn put_file_names(out: &mut Vec<u8>, files: &FileNames) -> Result<(), AllocError>
    ensures { OnOk result (out.new.items ≡ out.old.items ++ list name files.now) }
{
    put_list::<NameFormat>(out, files.names())
}

/// Reads the names of the files.
pub fn read_file_names(alloc: Global, bytes: &[u8]) -> Result<(FileNames, &[u8]), ReadError>
    ensures { Decodes (λ x. x) result (file_names_at bytes.now) }
{
    let (names, rest) = read_names(alloc, bytes)?;
    Ok((FileNames { names }, rest))
}

/// Reads 1 to 4,096 names that differ.
#[tactic(auto, unfolding(crate::specs::Reading::file_names_at))]
fn read_names(alloc: Global, bytes: &[u8]) -> Result<(Vec<Name>, &[u8]), ReadError>
    ensures { Decodes (λ x. x.items) result (file_names_at bytes.now) }
{
    let (count, rest) = read_eight(bytes)?;
    if count == 0 || count > Project::MOST_FILES as u64 {
        return Err(not_canonical(bytes));
    }
    read_new_names(alloc, count, rest)
}

/// Reads so many names that differ.
fn read_new_names(alloc: Global, count: u64, bytes: &[u8]) -> Result<(Vec<Name>, &[u8]), ReadError>
    ensures { Decodes (λ x. x.items) result (list_from name_at is_new [] count bytes.now) }
{
    let mut seen = BTreeSet::new(alloc);
    let mut items = Vec::new(alloc);
    let mut rest = bytes;
    for _ in 0..count {
        let (text, after) = read_name_text(rest)?;
        let is_new = seen.insert(text)?;
        if !is_new {
            return Err(not_canonical(rest));
        }
        items.push(Name::new(alloc, text)?)?;
        rest = after;
    }
    Ok((items, rest))
}

/// The bytes of a file, or what a step makes.
pub struct Text {
    bytes: Vec<u8>,
}

impl Drop for Text {
    fn drop(self) {
        let Text { bytes: _ } = self;
    }
}

impl Model for Text {
    ghost use Rattle.std.specs.Prelude.{ℕ, List};
    ghost use Rattle.steps_values.specs.Storable.{TextFits};

    ghost Value = { List ℕ };

    ghost view = { λ text. text.bytes.items };

    ghost invariant = { λ text. TextFits text.bytes.items };
}

impl Text {
    /// These bytes.
    pub fn new(bytes: Vec<u8>) -> Self
        ensures { result ≡ bytes.items }
    {
        // A vector has fewer than 2^64 items.
        let _few = bytes.len();
        Text { bytes }
    }

    /// The bytes.
    pub fn bytes(&self) -> &[u8]
        ensures value { result.now ≡ self.now }
        ensures fits { TextFits self.now }
    {
        self.bytes.as_slice()
    }
}

/// Bytes of a file or a step: their number, and they themselves.
pub struct TextFormat;

impl Format for TextFormat {
    ghost use Rattle.steps_values.specs.Canon.{text};
    ghost use Rattle.steps_values.specs.Storable.{TextFits};
    ghost use Rattle.steps_values.specs.Reading.{text_at};
    ghost use Rattle.steps_values.specs.ItemLaws.{lawful_text};
    ghost use Rattle.std.specs.Prelude.{List, ℕ};
    ghost use Rattle.byte_readers.specs.Views.{plain};

    type Item = Text;

    ghost Seen = { List ℕ };

    ghost view = { plain };

    ghost is_storable = { λ _. Unit {0} };

    ghost has_spelling = { TextFits };

    ghost spelling = { text };

    ghost reading = { text_at };

    ghost lawful = { lawful_text };

    fn check(item: &Text) {
        let _bytes = item.bytes();
    }

    fn write(out: &mut Vec<u8>, item: &Text) -> Result<(), AllocError> {
        put_eight(out, item.bytes().len())?;
        out.extend_from_slice(item.bytes())
    }

    #[tactic(auto, unfolding(crate::specs::Reading::text_at))]
    fn read(alloc: Global, bytes: &[u8]) -> Result<(Text, &[u8]), ReadError> {
        let (len, rest) = read_eight(bytes)?;
        let len = len as usize;
        if rest.len() < len {
            return Err(ReadError::Breach(Breach::Short));
        }
        let (front, rest) = rest.split_at(len);
        Ok((Text::new(front.to_vec(alloc)?), rest))
    }
}
