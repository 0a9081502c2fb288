//! The terms that the arguments name.
ghost use Rattle.std.specs.Prelude.{◌≡◌, ◌≤◌, ◌+◌};
ghost use Rattle.profiles.specs.Profiles.{profile_number};
ghost use Rattle.sessions.specs.Terms.{form_number};

use profiles::Profile;
use sessions::Form;

/// The profile of this number.
pub(crate) fn profile_of(number: u8) -> Profile
    requires some { 1 ≤ number }
    requires most { number ≤ 2 }
    ensures { profile_number result ≡ number }
{
    let Some(profile) = Profile::from_number(number) else {
        unreachable!();
    };
    profile
}

/// The form of this number.
pub(crate) fn form_of(number: u8) -> Form
    requires some { 1 ≤ number }
    requires most { number ≤ 2 }
    ensures { form_number result + 1 ≡ number }
{
    if number == 1 { Form::One } else { Form::Two }
}
