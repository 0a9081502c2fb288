//! The sentences of diagnostics.
ghost use Rattle.std.specs.Prelude.{◌≡◌};
ghost use Rattle.code_words.specs.Sentences.{sentence_of};

use crate::concat_sentences;
use mj_answer::Code;

const E101: &str = concat_sentences!(E101,);

const E102: &str = concat_sentences!(E102,);

const E103: &str = concat_sentences!(E103,);

const E104: &str = concat_sentences!(E104,);

const E201: &str = concat_sentences!(E201,);

const E202: &str = concat_sentences!(E202,);

const E203: &str = concat_sentences!(E203,);

const E204: &str = concat_sentences!(E204,);

const E205: &str = concat_sentences!(E205,);

const E206: &str = concat_sentences!(E206,);

const E207: &str = concat_sentences!(E207,);

const E301: &str = concat_sentences!(E301,);

const E302: &str = concat_sentences!(E302,);

const E303: &str = concat_sentences!(E303,);

const E304: &str = concat_sentences!(E304,);

const E305: &str = concat_sentences!(E305,);

const E306: &str = concat_sentences!(E306,);

const E307: &str = concat_sentences!(E307,);

const E308: &str = concat_sentences!(E308,);

const E309: &str = concat_sentences!(E309,);

const E310: &str = concat_sentences!(E310,);

const E311: &str = concat_sentences!(E311,);

const E312: &str = concat_sentences!(E312,);

const E313: &str = concat_sentences!(E313,);

const E314: &str = concat_sentences!(E314,);

const E315: &str = concat_sentences!(E315,);

const E316: &str = concat_sentences!(E316,);

const E317: &str = concat_sentences!(E317,);

const E318: &str = concat_sentences!(E318,);

const E319: &str = concat_sentences!(E319,);

/// The sentence of a diagnostic's code.
pub fn sentence<'a>(code: Code) -> &'a str
    ensures { result.now ≡ sentence_of code }
{
    match code {
        Code::E101 => E101,
        Code::E102 => E102,
        Code::E103 => E103,
        Code::E104 => E104,
        Code::E201 => E201,
        Code::E202 => E202,
        Code::E203 => E203,
        Code::E204 => E204,
        Code::E205 => E205,
        Code::E206 => E206,
        Code::E207 => E207,
        Code::E301 => E301,
        Code::E302 => E302,
        Code::E303 => E303,
        Code::E304 => E304,
        Code::E305 => E305,
        Code::E306 => E306,
        Code::E307 => E307,
        Code::E308 => E308,
        Code::E309 => E309,
        Code::E310 => E310,
        Code::E311 => E311,
        Code::E312 => E312,
        Code::E313 => E313,
        Code::E314 => E314,
        Code::E315 => E315,
        Code::E316 => E316,
        Code::E317 => E317,
        Code::E318 => E318,
        Code::E319 => E319,
    }
}
