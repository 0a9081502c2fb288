//! Look-ups of records one after another.
ghost use Rattle.std.specs.Prelude.{◌≡◌, ◌<◌, Some, None, IfSome, MatchOption, length, slice_index_or};
ghost use Rattle.sessions.specs.Sessions.{AreInside, entry_at, entry_of};

use crate::record::Record;
use crate::session::Session;
use item_ids::{Key, Kind};

/// Finds the records of keys, in one session or another. If the keys of a kind are asked for in order it needs no
/// search: it looks first behind the last record of that kind that it found. Contracts see nothing of that.
#[derive(Drop)]
pub struct Finder {
    behind: [usize; Kind::COUNT],
}

impl Finder {
    /// A finder that has found nothing.
    pub fn new() -> Finder {
        Finder {
            behind: [0; Kind::COUNT],
        }
    }

    /// The record of a key in a session, with its index, or `None` if there is none.
    pub fn find<'a>(&mut self, session: &'a Session, key: &Key) -> Option<(usize, &'a Record)>
        ensures found { MatchOption result (entry_at session.now key.now ≡ None)
            (λ r. entry_at session.now key.now ≡ Some (entry_of session.now.records r.1.now)) }
        ensures edges { IfSome result (λ r. AreInside session.now.records r.1.now.edges) }
        ensures within { IfSome result (λ r. r.0 < length session.now.records) }
        ensures there { IfSome result
            (λ r. r.1.now ≡ slice_index_or session.now.records r.0 r.1.now) }
    {
        let kind = key.kind().number() as usize;
        let Some(at) = session.index_near(self.behind[kind], key) else {
            return None;
        };
        self.behind[kind] = at.saturating_add(1);
        Some((at, &session.records()[at]))
    }
}
