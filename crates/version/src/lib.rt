//! What the program says of its version.
#![tactic(auto)]

ghost use Rattle.std.specs.Prelude.{◌≡◌};
ghost use Rattle.version.specs.Text.{text_of_version};

// The version, with what stands before and behind it.
macro_rules! versioned {
    ($front:literal, $behind:literal) => {
        concat!(
            $front,
            "0.1.0\nsession files: forms 1 and 2\nlanguage: profiles 1 and 2",
            $behind,
        )
    };
}

/// The version of the program, the forms of the session files that it reads and writes, and the profiles of the language.
pub const VERSION: &str = versioned!("", "");

/// What `mjrg --version` prints.
pub fn version_text() -> &'static str
    ensures { result.now ≡ text_of_version }
{
    versioned!("mjrg ", "\n")
}
