//! The profiles of the language.
ghost use Rattle.std.specs.Prelude.{◌≡◌, ◌≤◌, ◌↔◌, IsTrue, IsSome, IfSome};
ghost use Rattle.profiles.specs.Profiles.{profile_number};

/// By which of its rules MiniJava is checked.
#[derive(Clone, Copy, Debug, PartialEq, Eq)]
pub enum Profile {
    /// A method has the return type of the one that it overrides.
    One,
    /// A method's return type is accepted by that of the one that it overrides.
    Two,
}

impl Profile {
    /// The profile's number, by which command lines and files name it.
    pub fn number(self) -> u8
        ensures { result ≡ profile_number self }
    {
        match self {
            Profile::One => 1,
            Profile::Two => 2,
        }
    }

    /// The profile that has this number, or `None` if none has.
    pub fn from_number(number: u8) -> Option<Profile>
        ensures found { IfSome result (λ profile. profile_number profile ≡ number) }
        ensures known { IsSome result ↔ ((1 ≤ number) × (number ≤ 2)) }
    {
        match number {
            1 => Some(Profile::One),
            2 => Some(Profile::Two),
            _ => None,
        }
    }

    /// Whether it is this profile.
    pub fn is(self, other: Profile) -> bool
        ensures { IsTrue result ↔ (self ≡ other) }
    {
        match (self, other) {
            (Profile::One, Profile::One) | (Profile::Two, Profile::Two) => true,
            (Profile::One, Profile::Two) | (Profile::Two, Profile::One) => false,
        }
    }
}
