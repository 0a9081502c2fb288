//! Laws of every session.
ghost use Rattle.std.specs.Prelude.{◌≡◌, Some};
ghost use Rattle.item_ids.specs.declared.key.Key.{Key};
ghost use Rattle.item_ids.specs.KeyLists.{NoneTwice, AreLower};
ghost use Rattle.sessions.specs.Sessions.{Entry, SessionValue, IsSession, entry_at};

/// The keys that were read for a key are of lower rank, and none is there twice.
pub fn edges_are_below()
    ensures below { (s : SessionValue) → IsSession s → (q : Key) (r : Entry) → entry_at s q ≡ Some r
        → AreLower q r.reads }
    ensures once { (s : SessionValue) → IsSession s → (q : Key) (r : Entry) → entry_at s q ≡ Some r
        → NoneTwice (λ k. k) r.reads }
{}
