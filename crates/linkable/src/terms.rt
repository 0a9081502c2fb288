//! The terms, by their numbers.
ghost use Rattle.std.specs.Prelude.{◌≡◌, ◌≤◌, ◌↔◌, IfOk, IfErr, IfSome, IsSome, string_bytes};
ghost use Rattle.profiles.specs.Profiles.{profile_number};
ghost use Rattle.linkable.specs.Stopping.{Says};
ghost use Rattle.linkable.specs.Terms.{IsForm, IsNoForm, IsNoProfile, no_form_line, no_profile_line};

use crate::stopping::Stop;
use profiles::Profile;
use sessions::Form;
use std::alloc::{AllocError, Global};

/// The profile of this number.
pub(crate) fn profile_of(alloc: Global, number: u32) -> Result<Profile, Stop>
    ensures found { IfOk result (λ profile. profile_number profile ≡ number) }
    ensures refused { IfErr result (Says (IsNoProfile number)) }
{
    match known_profile(number) {
        Some(profile) => Ok(profile),
        None => Err(Stop::Refused(no_profile_text(alloc, number)?)),
    }
}

/// The form of this number.
pub(crate) fn form_of(alloc: Global, number: u32) -> Result<Form, Stop>
    ensures found { IfOk result (IsForm number) }
    ensures refused { IfErr result (Says (IsNoForm number)) }
{
    match known_form(number) {
        Some(form) => Ok(form),
        None => Err(Stop::Refused(no_form_text(alloc, number)?)),
    }
}

// The profile of this number, if it has one.
fn known_profile(number: u32) -> Option<Profile>
    ensures found { IfSome result (λ profile. profile_number profile ≡ number) }
    ensures known { IsSome result ↔ ((1 ≤ number) × (number ≤ 2)) }
{
    match number {
        1 => Some(Profile::One),
        2 => Some(Profile::Two),
        _ => None,
    }
}

// The form of this number, if it has one.
fn known_form(number: u32) -> Option<Form>
    ensures found { IfSome result (IsForm number) }
    ensures known { IsSome result ↔ ((1 ≤ number) × (number ≤ 2)) }
{
    match number {
        1 => Some(Form::One),
        2 => Some(Form::Two),
        _ => None,
    }
}

// What is said of a number that no profile has.
fn no_profile_text(alloc: Global, number: u32) -> Result<String, AllocError>
    ensures { IfOk result (λ text. string_bytes text ≡ no_profile_line number) }
{
    format!(in alloc; "refused: no profile {number}\n")
}

// What is said of a number that no form has.
fn no_form_text(alloc: Global, number: u32) -> Result<String, AllocError>
    ensures { IfOk result (λ text. string_bytes text ≡ no_form_line number) }
{
    format!(in alloc; "refused: no form {number}\n")
}
