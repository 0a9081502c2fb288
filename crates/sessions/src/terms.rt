//! The terms of sessions.
ghost use Rattle.std.specs.Prelude.{◌≡◌};
ghost use Rattle.sessions.specs.Terms.{ends_with_print, first_terms, form_number, terms_with, version_of};

use crate::mark::Mark;
use profiles::Profile;

/// How a session's file is written.
#[derive(Clone, Copy, Debug, PartialEq, Eq)]
pub enum Form {
    /// Each record has its result.
    One,
    /// A green record has only the fingerprint of its result, which is that of the previous session.
    Two,
}

impl Form {
    /// The form's number in a version.
    pub fn number(self) -> u8
        ensures { result ≡ form_number self }
    {
        match self {
            Form::One => 0,
            Form::Two => 1,
        }
    }

    /// Whether a record of this mark ends with the fingerprint of its result.
    pub fn ends_with_print(self, mark: Mark) -> bool
        ensures { result ≡ ends_with_print self mark }
    {
        match (self, mark) {
            (Form::Two, Mark::Green) => true,
            (Form::One, _) | (Form::Two, Mark::Input | Mark::Executed) => false,
        }
    }
}

/// By which rules a session checks its project, and how its file is written.
#[derive(Clone, Copy, Debug, PartialEq, Eq)]
pub struct Terms {
    /// The profile of the language.
    pub profile: Profile,
    /// How its file is written.
    pub form: Form,
}

impl Terms {
    /// Profile 1 and form 1.
    pub fn first() -> Terms
        ensures { result ≡ first_terms }
    {
        Terms {
            profile: Profile::One,
            form: Form::One,
        }
    }

    /// The version of a file with these terms.
    pub fn version(self) -> u16
        ensures { result ≡ version_of self }
    {
        match (self.form, self.profile) {
            (Form::One, Profile::One) => 1,
            (Form::One, Profile::Two) => 2,
            (Form::Two, Profile::One) => 257,
            (Form::Two, Profile::Two) => 258,
        }
    }

    /// The terms of a file of this version, or `None` if there is no such version.
    #[tactic(auto, unfolding(crate::specs::Terms::terms_with))]
    pub fn of_version(version: u16) -> Option<Terms>
        ensures { result ≡ terms_with version }
    {
        let (form, profile) = match version {
            1 => (Form::One, Profile::One),
            2 => (Form::One, Profile::Two),
            257 => (Form::Two, Profile::One),
            258 => (Form::Two, Profile::Two),
            _ => return None,
        };
        Some(Terms { profile, form })
    }
}
