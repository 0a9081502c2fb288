//! Kinds of queries.
ghost use Rattle.std.specs.Prelude.{◌≡◌, ◌<◌, ◌↔◌, IsSome, IfSome};
ghost use Rattle.steps_keys.specs.Kinds.{number_of, kind_count, rank_of};

/// What a query asks for.
#[derive(Clone, Copy, Debug, PartialEq, Eq, PartialOrd, Ord)]
pub enum Kind {
    /// The names of the project's files.
    Files,
    /// The bytes of a file.
    Source,
    /// The steps of the build, and what each reads.
    Plan,
    /// What a step makes of files alone.
    Compile,
    /// What a step makes of files and of what the steps of files alone made.
    Link,
    /// What the build makes.
    Answer,
}

impl Kind {
    /// How many kinds there are. Their numbers are those below it.
    pub const COUNT: usize = 6;

    /// The kind's number, by which kinds are written in files and keys are ordered.
    pub fn number(self) -> u8
        ensures number { result ≡ number_of self }
        ensures few { result < kind_count }
    {
        match self {
            Kind::Files => 0,
            Kind::Source => 1,
            Kind::Plan => 2,
            Kind::Compile => 3,
            Kind::Link => 4,
            Kind::Answer => 5,
        }
    }

    /// The kind that has this number.
    pub fn from_number(number: u8) -> Option<Kind>
        ensures found { IfSome result (λ kind. number_of kind ≡ number) }
        ensures known { IsSome result ↔ (number < kind_count) }
    {
        match number {
            0 => Some(Kind::Files),
            1 => Some(Kind::Source),
            2 => Some(Kind::Plan),
            3 => Some(Kind::Compile),
            4 => Some(Kind::Link),
            5 => Some(Kind::Answer),
            _ => None,
        }
    }
}

/// The rank of a kind. A query reads queries of lower rank alone.
pub fn rank(kind: Kind) -> u8
    ensures { result ≡ rank_of kind }
{
    match kind {
        Kind::Files | Kind::Source => 0,
        Kind::Plan => 1,
        Kind::Compile => 2,
        Kind::Link => 3,
        Kind::Answer => 4,
    }
}
