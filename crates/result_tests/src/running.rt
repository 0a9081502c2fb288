use answer_fixtures::KeyParts;
use item_ids::Kind;
use profiles::Profile;
use recorder::ReadFault;
use run_fixtures::{Given, KeptReads, gives, is_log_empty, leaves, leaves_refused, tells_profile};
use std::test::*;

/// A run: its key and its result, and the answers that it reads, in their order.
struct Run {
    gives: Given<'static>,
    reads: &'static [Given<'static>],
}

// What the queries of a file a with bytes, an empty file b and no file c answer.
const SOURCE_A: Given = Given(KeyParts(Kind::Source, "a", ""), "0101000000000000000141");

const SOURCE_B: Given = Given(KeyParts(Kind::Source, "b", ""), "01010000000000000000");

const SOURCE_C: Given = Given(KeyParts(Kind::Source, "c", ""), "0100");

const HEADER_A: Given = Given(
    KeyParts(Kind::Header, "a", ""),
    "0401000000000000000000000000000000000000",
);

const HEADER_B: Given = Given(
    KeyParts(Kind::Header, "b", ""),
    "0401010000000000000000000000000000000000",
);

const HEADER_C: Given = Given(KeyParts(Kind::Header, "c", ""), "0400");

// The file a takes an int, the file b nothing. Each gives a boolean with a file that is there, else an int.
const SIG_A_B: Given = Given(KeyParts(Kind::Sig, "a", "b"), "060100000000000000010001");

const SIG_A_A: Given = Given(KeyParts(Kind::Sig, "a", "a"), "060100000000000000010001");

const SIG_A_C: Given = Given(KeyParts(Kind::Sig, "a", "c"), "060100000000000000010000");

const SIG_B_A: Given = Given(KeyParts(Kind::Sig, "b", "a"), "0601000000000000000001");

const SIG_C_A: Given = Given(KeyParts(Kind::Sig, "c", "a"), "0600");

// An answer that no project gives beside the headers.
const NO_SIG_A_B: Given = Given(KeyParts(Kind::Sig, "a", "b"), "0600");

// The files a and b, and a alone.
const BOTH: Given = Given(KeyParts(Kind::Files, "", ""), "00000000000000000201610162");

const ONE: Given = Given(KeyParts(Kind::Files, "", ""), "0000000000000000010161");

// Headers; signatures; checks of classes, with one diagnostic if some file is empty: E310 at the class; checks of
// bodies, with one diagnostic if the phrase of both names has no type; kinds that read nothing.
const RUNS: &[Run] = &[
    Run {
        gives: HEADER_A,
        reads: &[SOURCE_A],
    },
    Run {
        gives: HEADER_B,
        reads: &[SOURCE_B],
    },
    Run {
        gives: HEADER_C,
        reads: &[SOURCE_C],
    },
    Run {
        gives: SIG_A_B,
        reads: &[HEADER_A, HEADER_B],
    },
    Run {
        gives: SIG_A_A,
        reads: &[HEADER_A],
    },
    Run {
        gives: SIG_A_C,
        reads: &[HEADER_A, HEADER_C],
    },
    Run {
        gives: SIG_B_A,
        reads: &[HEADER_B, HEADER_A],
    },
    Run {
        gives: SIG_C_A,
        reads: &[HEADER_C],
    },
    Run {
        gives: Given(
            KeyParts(Kind::CheckClass, "a", ""),
            "090000000000000001000136",
        ),
        reads: &[BOTH, HEADER_A, HEADER_B],
    },
    Run {
        gives: Given(KeyParts(Kind::CheckClass, "b", ""), "090000000000000000"),
        reads: &[ONE, HEADER_A],
    },
    Run {
        gives: Given(KeyParts(Kind::CheckBody, "a", "b"), "0a0000000000000000"),
        reads: &[HEADER_A, HEADER_B, SIG_A_B, SIG_B_A],
    },
    Run {
        gives: Given(
            KeyParts(Kind::CheckBody, "a", "b"),
            "0a0000000000000001000136",
        ),
        reads: &[HEADER_A, HEADER_B, NO_SIG_A_B, SIG_B_A],
    },
    Run {
        gives: Given(KeyParts(Kind::CheckBody, "a", "a"), "0a0000000000000000"),
        reads: &[HEADER_A],
    },
    Run {
        gives: Given(
            KeyParts(Kind::CheckBody, "c", "a"),
            "0a0000000000000001000136",
        ),
        reads: &[HEADER_C, HEADER_A],
    },
    Run {
        gives: Given(KeyParts(Kind::Tree, "a", ""), "0200"),
        reads: &[],
    },
    Run {
        gives: Given(KeyParts(Kind::Index, "", ""), "030000000000000000"),
        reads: &[],
    },
    Run {
        gives: Given(KeyParts(Kind::Method, "a", "b"), "0500"),
        reads: &[],
    },
    Run {
        gives: Given(KeyParts(Kind::Supers, "a", ""), "0700"),
        reads: &[],
    },
    Run {
        gives: Given(KeyParts(Kind::Members, "a", ""), "0800"),
        reads: &[],
    },
    Run {
        gives: Given(KeyParts(Kind::Diags, "a", ""), "0b0000000000000000"),
        reads: &[],
    },
    Run {
        gives: Given(
            KeyParts(Kind::Answer, "", ""),
            "0c00000000000000000000000000000000",
        ),
        reads: &[],
    },
];

#[test]
fn runs_give_results(rt: HostRuntime) -> Result<(), Fail> {
    for run in RUNS {
        assert!(rt; gives(rt.alloc(), run.gives, run.reads)?);
    }
    Ok(())
}

#[test]
fn outcomes_tell_profiles(rt: HostRuntime) -> Result<(), Fail> {
    for profile in [Profile::One, Profile::Two] {
        assert!(rt; tells_profile(rt.alloc(), profile, HEADER_A.0, &[SOURCE_A])?);
    }
    Ok(())
}

#[test]
fn log_of_a_new_runner(rt: HostRuntime) {
    assert!(rt; is_log_empty(rt.alloc()));
}

// What is kept of a run whose second read has no answer: the first read, and of the second one the fault and the key.
const HALF: KeptReads = KeptReads {
    reads: &[HEADER_A],
    fault: Some(ReadFault::NotHeld),
    refused: Some(KeyParts(Kind::Header, "b", "")),
};

// The call is logged.
#[test]
fn key_that_is_not_held(rt: HostRuntime) -> Result<(), Fail> {
    assert!(rt; leaves(rt.alloc(), SIG_A_B.0, HALF)?);
    Ok(())
}

// Faults, and the key that is kept with each: none if memory ran out.
const REFUSALS: &[(ReadFault, Option<KeyParts>)] = &[
    (ReadFault::Stopped, Some(KeyParts(Kind::Source, "a", ""))),
    (ReadFault::NotHeld, Some(KeyParts(Kind::Source, "a", ""))),
    (ReadFault::OutOfMemory, None),
];

#[test]
fn reads_that_are_refused(rt: HostRuntime) -> Result<(), Fail> {
    for (fault, refused) in REFUSALS {
        assert!(rt; leaves_refused(rt.alloc(), HEADER_A.0, *fault, *refused)?);
    }
    Ok(())
}
