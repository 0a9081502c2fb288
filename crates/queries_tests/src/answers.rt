//! Answers that cases name, most of them those of a main class alone, and whether cases are right.

use answer_fixtures::{KeyParts, Unfit};
use item_ids::Kind;
use profiles::Profile;
use query_fixtures::{Row, is_right};
use run_fixtures::Given;
use std::alloc::Global;

pub const FILE_A: Given<'static> = Given(KeyParts(Kind::Files, "", ""), "0000000000000000010161");

pub const FILES: Given<'static> = Given(
    KeyParts(Kind::Files, "", ""),
    "000000000000000001064d2e6a617661",
);

pub const TREE_OF_ONE: Given<'static> = Given(
    KeyParts(Kind::Tree, "M.java", ""),
    "020101014d030000000b0800000011000000010000000000000000",
);

pub const NO_TREE: Given<'static> = Given(KeyParts(Kind::Tree, "a", ""), "0200");

pub const INDEX_OF_ONE: Given<'static> = Given(
    KeyParts(Kind::Index, "", ""),
    "030000000000000001014d064d2e6a617661",
);

pub const NO_HEADER_A: Given<'static> = Given(KeyParts(Kind::Header, "A", ""), "0400");

pub const HEADER_A: Given<'static> = Given(
    KeyParts(Kind::Header, "A", ""),
    "040100000000000000000000000000000000000201660167",
);

pub const NO_HEADER_B: Given<'static> = Given(KeyParts(Kind::Header, "B", ""), "0400");

pub const HEADER_M: Given<'static> = Given(
    KeyParts(Kind::Header, "M", ""),
    "0401010000000000000000000000000000000000",
);

pub const HEADER_Z: Given<'static> = Given(KeyParts(Kind::Header, "Z", ""), "0400");

pub const METHOD_MAIN: Given<'static> = Given(
    KeyParts(Kind::Method, "M", "main"),
    "050100030000000b07000000160e00000011014101660000000000000000",
);

pub const MAIN_OF_ONE: Given<'static> = Given(
    KeyParts(Kind::Method, "M", "main"),
    "050100030000000b080000001100000001",
);

pub const SIG_F: Given<'static> = Given(KeyParts(Kind::Sig, "A", "f"), "0601000000000000000000");

pub const SIG_MAIN: Given<'static> = Given(KeyParts(Kind::Sig, "M", "main"), "0600");

pub const SUPERS_B: Given<'static> = Given(
    KeyParts(Kind::Supers, "B", ""),
    "070100000000000000020142014100",
);

pub const SUPERS_M: Given<'static> = Given(
    KeyParts(Kind::Supers, "M", ""),
    "07010000000000000001014d00",
);

pub const SUPERS_Z: Given<'static> = Given(KeyParts(Kind::Supers, "Z", ""), "0700");

pub const MEMBERS_A: Given<'static> = Given(
    KeyParts(Kind::Members, "A", ""),
    "0801000000000000000000000000000000020166014100000000000000000001670141000000000000000000",
);

pub const MEMBERS_M: Given<'static> = Given(
    KeyParts(Kind::Members, "M", ""),
    "080100000000000000000000000000000000",
);

pub const MEMBERS_Z: Given<'static> = Given(KeyParts(Kind::Members, "Z", ""), "0800");

pub const CLASS_M: Given<'static> = Given(
    KeyParts(Kind::CheckClass, "M", ""),
    "090000000000000000",
);

pub const CLASS_Z: Given<'static> = Given(
    KeyParts(Kind::CheckClass, "Z", ""),
    "090000000000000000",
);

pub const BODY_F: Given<'static> = Given(KeyParts(Kind::CheckBody, "A", "f"), "0a0000000000000000");

pub const BODY_H: Given<'static> = Given(KeyParts(Kind::CheckBody, "A", "h"), "0a0000000000000000");

pub const BODY_MAIN: Given<'static> = Given(
    KeyParts(Kind::CheckBody, "M", "main"),
    "0a0000000000000000",
);

pub const DIAGS_M: Given<'static> = Given(KeyParts(Kind::Diags, "M", ""), "0b0000000000000000");

pub const DIAGS_Z: Given<'static> = Given(KeyParts(Kind::Diags, "Z", ""), "0b0000000000000000");

pub const ANSWER_OF_ONE: Given<'static> = Given(
    KeyParts(Kind::Answer, "", ""),
    "0c00000000000000000000000000000001014d000000000000000000000000000000000000000000000000",
);

/// Whether each of the cases is right in a profile.
pub(crate) fn are_right_in(alloc: Global, profile: Profile, rows: &[Row]) -> Result<bool, Unfit> {
    for row in rows {
        if !is_right(alloc, profile, *row)? {
            return Ok(false);
        }
    }
    Ok(true)
}

/// Whether each of the cases is right in profile 1.
pub(crate) fn are_right(alloc: Global, rows: &[Row]) -> Result<bool, Unfit> {
    are_right_in(alloc, Profile::One, rows)
}
