//! Codes that are explained, a sentence, and an argument that is no code.
use code_words::{ExplainFault, explain, sentence, unknown_text};
use mj_answer::Code;
use std::alloc::{AllocError, Global};
use std::test::Fail;

/// Arguments, and what is said of them.
const TOLD: &[(&[&str], &str)] = &[
    (&[], ""),
    (
        &["E308", "14.14"],
        "\
E308: the index isn't an int
  rule     what stands between [ and ] is an int
  example  x = (new int[3])[true];
  do       write an int between [ and ]

14.14 NoAnswer: the last session has no answer
  rule     the last session has a record of the answer
  example  the answer was taken out of the last session
  do       don't trust the answer of the chain, and begin one in a new folder
",
    ),
];

/// The arguments as they are handed in.
fn words(alloc: Global, texts: &[&str]) -> Result<Vec<String>, AllocError> {
    let mut words = Vec::new(alloc);
    for text in texts {
        words.push(String::from_str(alloc, text)?)?;
    }
    Ok(words)
}

/// Whether this is said of these arguments.
fn are_told(alloc: Global, asked: &[&str], want: &str) -> Result<bool, Fail> {
    let asked = words(alloc, asked)?;
    match explain(alloc, asked.as_slice()) {
        Ok(text) => Ok(text.as_str() == want),
        Err(_) => Ok(false),
    }
}

#[test]
fn tells_of_codes(rt: HostRuntime) -> Result<(), Fail> {
    for (asked, want) in TOLD {
        assert!(rt; are_told(rt.alloc(), asked, want)?, "{asked:?}");
    }
    Ok(())
}

/// Whether these arguments are refused for this one.
fn are_refused(alloc: Global, asked: &[&str], want: &str) -> Result<bool, Fail> {
    let asked = words(alloc, asked)?;
    match explain(alloc, asked.as_slice()) {
        Err(ExplainFault::Unknown(word)) => Ok(word.as_str() == want),
        Ok(_) | Err(ExplainFault::OutOfMemory) => Ok(false),
    }
}

#[test]
fn refuses_the_first_word_that_is_no_code(rt: HostRuntime) -> Result<(), Fail> {
    assert!(rt; are_refused(rt.alloc(), &["E101", "e101", "14.16"], "e101")?);
    Ok(())
}

/// Codes, and their sentences.
const SENTENCES: &[(Code, &str)] = &[
    (Code::E102, "no file that can be parsed has a main class"),
    (
        Code::E319,
        "the returned value isn't accepted by the return type",
    ),
];

#[test]
fn has_the_sentences(rt: HostRuntime) -> Result<(), Fail> {
    for (code, want) in SENTENCES {
        assert!(rt; sentence(*code) == *want);
    }
    Ok(())
}

const UNKNOWN: &str = "\
error: unknown code '1.1'

The codes are
  E101 E102 E103 E104
  E201 E202 E203 E204 E205 E206 E207
  E301 E302 E303 E304 E305 E306 E307 E308 E309 E310
  E311 E312 E313 E314 E315 E316 E317 E318 E319
and the refusals
  3.1 3.2 3.3 3.4
  11.1 11.2 11.3 11.4 11.5 11.6
  11.7 11.8 11.9 11.11 11.12 11.13
  14.1 14.2 14.3 14.4 14.5 14.6
  14.7 14.8 14.9 14.10 14.11 14.12 14.13 14.14 14.15 14.17
";

#[test]
fn lists_all_codes(rt: HostRuntime) -> Result<(), Fail> {
    assert!(rt; unknown_text(rt.alloc(), "1.1")?.as_str() == UNKNOWN);
    Ok(())
}
