//! The words that messages begin with.
ghost use Rattle.std.specs.Prelude.{◌≡◌, ◌≢◌, MatchOption, MatchBool};
ghost use Rattle.redgreen_words.specs.Words.{spell};

/// The word that a message begins with.
#[derive(Clone, Copy, Debug, PartialEq, Eq)]
pub(crate) enum Word {
    Run,
    Value,
    Input,
    Stale,
    Accepted,
    Refused,
    Audit,
    Read,
    Done,
    Fail,
    Bytes,
    Stop,
}

/// All words.
const WORDS: [Word; 12] = [
    Word::Run,
    Word::Value,
    Word::Input,
    Word::Stale,
    Word::Accepted,
    Word::Refused,
    Word::Audit,
    Word::Read,
    Word::Done,
    Word::Fail,
    Word::Bytes,
    Word::Stop,
];

impl Word {
    /// The bytes of the word.
    pub(crate) fn spelling(self) -> &'static [u8]
        ensures { result.now ≡ spell self }
    {
        match self {
            Word::Run => b"run",
            Word::Value => b"value",
            Word::Input => b"input",
            Word::Stale => b"stale",
            Word::Accepted => b"accepted",
            Word::Refused => b"refused",
            Word::Audit => b"audit",
            Word::Read => b"read",
            Word::Done => b"done",
            Word::Fail => b"fail",
            Word::Bytes => b"bytes",
            Word::Stop => b"stop",
        }
    }

    /// Whether these are the bytes of the word.
    fn is_spelled(self, bytes: &[u8]) -> bool
        ensures { MatchBool result (bytes.now ≡ spell self) (bytes.now ≢ spell self) }
    {
        bytes == self.spelling()
    }

    /// The word of these bytes.
    pub(crate) fn of(bytes: &[u8]) -> Option<Word>
        ensures { MatchOption result ((word : Word) → bytes.now ≢ spell word)
            (λ word. bytes.now ≡ spell word) }
    {
        for word in WORDS {
            if word.is_spelled(bytes) {
                return Some(word);
            }
        }
        None
    }
}
