//! Kinds of queries.
ghost use Rattle.std.specs.Prelude.{◌≡◌, ◌<◌, ◌↔◌, IsSome, IfSome};
ghost use Rattle.item_ids.specs.Kinds.{number_of, kind_count, rank_of};

/// What a query asks for.
#[derive(Clone, Copy, Debug, PartialEq, Eq, PartialOrd, Ord)]
pub enum Kind {
    /// The names of the project's files.
    Files,
    /// The bytes of a file.
    Source,
    /// The tree of a file.
    Tree,
    /// Which class stands in which file.
    Index,
    /// A class without its bodies.
    Header,
    /// A method of a class.
    Method,
    /// The types of a method of a class.
    Sig,
    /// The chain of classes that a class extends.
    Supers,
    /// The fields and methods of a class, inherited ones too.
    Members,
    /// The diagnostics in a class's declarations.
    CheckClass,
    /// The diagnostics in a method's body.
    CheckBody,
    /// All diagnostics of a class.
    Diags,
    /// The answer for the whole project.
    Answer,
}

impl Kind {
    /// How many kinds there are. Their numbers are those below it.
    pub const COUNT: usize = 13;

    /// The kind's number, by which kinds are written in files and keys are ordered.
    pub fn number(self) -> u8
        ensures number { result ≡ number_of self }
        ensures few { result < kind_count }
    {
        match self {
            Kind::Files => 0,
            Kind::Source => 1,
            Kind::Tree => 2,
            Kind::Index => 3,
            Kind::Header => 4,
            Kind::Method => 5,
            Kind::Sig => 6,
            Kind::Supers => 7,
            Kind::Members => 8,
            Kind::CheckClass => 9,
            Kind::CheckBody => 10,
            Kind::Diags => 11,
            Kind::Answer => 12,
        }
    }

    /// The kind that has this number.
    pub fn from_number(number: u8) -> Option<Kind>
        ensures found { IfSome result (λ kind. number_of kind ≡ number) }
        ensures known { IsSome result ↔ (number < kind_count) }
    {
        match number {
            0 => Some(Kind::Files),
            1 => Some(Kind::Source),
            2 => Some(Kind::Tree),
            3 => Some(Kind::Index),
            4 => Some(Kind::Header),
            5 => Some(Kind::Method),
            6 => Some(Kind::Sig),
            7 => Some(Kind::Supers),
            8 => Some(Kind::Members),
            9 => Some(Kind::CheckClass),
            10 => Some(Kind::CheckBody),
            11 => Some(Kind::Diags),
            12 => Some(Kind::Answer),
            _ => None,
        }
    }
}

/// The rank of a kind. A query reads queries of lower rank alone.
pub fn rank(kind: Kind) -> u8
    ensures { result ≡ rank_of kind }
{
    match kind {
        Kind::Files | Kind::Source => 0,
        Kind::Tree => 1,
        Kind::Index => 2,
        Kind::Header | Kind::Method => 3,
        Kind::Sig | Kind::Supers => 4,
        Kind::Members => 5,
        Kind::CheckClass | Kind::CheckBody => 6,
        Kind::Diags => 7,
        Kind::Answer => 8,
    }
}
