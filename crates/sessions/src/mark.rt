//! How keys became done.
ghost use Rattle.std.specs.Prelude.{◌≡◌, ◌<◌, ◌↔◌, IsSome, IfSome};
ghost use Rattle.sessions.specs.Marks.{mark_number};

/// How a key became done.
#[derive(Clone, Copy, Debug, PartialEq, Eq)]
pub enum Mark {
    /// It is an input.
    Input,
    /// It was run.
    Executed,
    /// Its result, and all that it read, is that of the previous session.
    Green,
}

impl Mark {
    /// The mark's number, by which it is written in files.
    pub fn number(self) -> u8
        ensures { result ≡ mark_number self }
    {
        match self {
            Mark::Input => 0,
            Mark::Executed => 1,
            Mark::Green => 2,
        }
    }

    /// The mark that has this number, or `None` if none has.
    pub fn from_number(number: u8) -> Option<Mark>
        ensures found { IfSome result (λ mark. mark_number mark ≡ number) }
        ensures known { IsSome result ↔ (number < 3) }
    {
        match number {
            0 => Some(Mark::Input),
            1 => Some(Mark::Executed),
            2 => Some(Mark::Green),
            _ => None,
        }
    }
}
