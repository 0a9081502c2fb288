use answer_fixtures::{KeyParts, Unfit, is_copy, is_less, is_made, is_named, key_of};
use indexmap::IndexMap;
use item_ids::{Kind, rank};
use std::alloc::Global;
use std::hash::Hash;
use std::test::*;

/// A kind with its number and its rank.
struct Numbered {
    kind: Kind,
    number: u8,
    rank: u8,
}

const KINDS: &[Numbered] = &[
    Numbered {
        kind: Kind::Files,
        number: 0,
        rank: 0,
    },
    Numbered {
        kind: Kind::Source,
        number: 1,
        rank: 0,
    },
    Numbered {
        kind: Kind::Tree,
        number: 2,
        rank: 1,
    },
    Numbered {
        kind: Kind::Index,
        number: 3,
        rank: 2,
    },
    Numbered {
        kind: Kind::Header,
        number: 4,
        rank: 3,
    },
    Numbered {
        kind: Kind::Method,
        number: 5,
        rank: 3,
    },
    Numbered {
        kind: Kind::Sig,
        number: 6,
        rank: 4,
    },
    Numbered {
        kind: Kind::Supers,
        number: 7,
        rank: 4,
    },
    Numbered {
        kind: Kind::Members,
        number: 8,
        rank: 5,
    },
    Numbered {
        kind: Kind::CheckClass,
        number: 9,
        rank: 6,
    },
    Numbered {
        kind: Kind::CheckBody,
        number: 10,
        rank: 6,
    },
    Numbered {
        kind: Kind::Diags,
        number: 11,
        rank: 7,
    },
    Numbered {
        kind: Kind::Answer,
        number: 12,
        rank: 8,
    },
];

fn is_numbered(row: &Numbered) -> bool {
    row.kind.number() == row.number
        && Kind::from_number(row.number) == Some(row.kind)
        && rank(row.kind) == row.rank
}

#[test]
fn numbers_and_ranks(rt: HostRuntime) {
    for row in KINDS {
        assert!(rt; is_numbered(row), "{}", row.number);
    }
    assert!(rt; Kind::from_number(13).is_none());
}

/// Two keys, the lesser one first.
struct Ordered {
    lesser: KeyParts<'static>,
    greater: KeyParts<'static>,
}

const ORDERED: &[Ordered] = &[
    Ordered {
        lesser: KeyParts(Kind::Source, "B.java", ""),
        greater: KeyParts(Kind::Source, "a.java", ""),
    },
    Ordered {
        lesser: KeyParts(Kind::Header, "z", ""),
        greater: KeyParts(Kind::Method, "A", "a"),
    },
    Ordered {
        lesser: KeyParts(Kind::Method, "A", "z"),
        greater: KeyParts(Kind::Method, "B", "a"),
    },
    Ordered {
        lesser: KeyParts(Kind::Method, "A", "b"),
        greater: KeyParts(Kind::Method, "Aa", "a"),
    },
    Ordered {
        lesser: KeyParts(Kind::Files, "", ""),
        greater: KeyParts(Kind::Source, "A", ""),
    },
    Ordered {
        lesser: KeyParts(Kind::Diags, "z", ""),
        greater: KeyParts(Kind::Answer, "", ""),
    },
];

/// Whether the first key is less than the second and the second not less than the first.
fn are_ordered(alloc: Global, row: &Ordered) -> bool {
    is_less(alloc, row.lesser, row.greater) == Ok(true)
        && is_less(alloc, row.greater, row.lesser) == Ok(false)
}

/// Whether a copy of the first key equals the key that it is made of alone.
fn is_copied_alone(alloc: Global, row: &Ordered) -> bool {
    is_copy(alloc, row.lesser, row.lesser) == Ok(true)
        && is_copy(alloc, row.lesser, row.greater) == Ok(false)
}

#[test]
fn lesser_keys(rt: HostRuntime) {
    for row in ORDERED {
        let alloc = rt.alloc();
        assert!(rt;
            are_ordered(alloc, row) && is_copied_alone(alloc, row),
            "{:?}",
            row.lesser
        );
    }
}

const BODY: KeyParts = KeyParts(Kind::CheckBody, "A", "f");

const SWAPPED: KeyParts = KeyParts(Kind::CheckBody, "f", "A");

#[test]
fn names_of_a_key(rt: HostRuntime) {
    assert!(rt; is_named(rt.alloc(), BODY, BODY) == Ok(true));
    assert!(rt; is_named(rt.alloc(), BODY, SWAPPED) == Ok(false));
}

const UNFIT: &[KeyParts] = &[
    KeyParts(Kind::Method, "A", ""),
    KeyParts(Kind::Answer, "A", ""),
    KeyParts(Kind::Header, "", ""),
    KeyParts(Kind::Tree, "A", "f"),
    KeyParts(Kind::Sig, "", "f"),
];

#[test]
fn names_that_fit_no_kind(rt: HostRuntime) {
    for asked in UNFIT {
        assert!(rt; is_made(rt.alloc(), *asked) == Ok(false), "{asked:?}");
    }
}

// Keys that differ in kind, in class, in method and in where a name ends.
const MAPPED: &[KeyParts] = &[
    KeyParts(Kind::Files, "", ""),
    KeyParts(Kind::Header, "A", ""),
    KeyParts(Kind::Supers, "A", ""),
    KeyParts(Kind::Header, "B", ""),
    KeyParts(Kind::Method, "A", "f"),
    KeyParts(Kind::Method, "A", "g"),
    KeyParts(Kind::Sig, "Ab", "c"),
    KeyParts(Kind::Sig, "A", "bc"),
];

// The functions on maps are those of any type of keys, so that none of them writes out how a key of a query is dropped.

/// Puts a key into a map with its place.
fn put<K: Eq + Hash + Drop>(map: &mut IndexMap<K, usize>, key: K, at: usize) -> Result<(), Unfit> {
    match map.insert(key, at) {
        Ok(_) => Ok(()),
        Err(_) => Err(Unfit),
    }
}

/// Puts each key into a map with its place.
fn put_all<'a, K: Eq + Hash + Drop, F: Fn(KeyParts<'a>) -> Result<K, Unfit>>(
    map: &mut IndexMap<K, usize>,
    keys: &[KeyParts<'a>],
    make: &F,
) -> Result<(), Unfit>
    requires { F.IsAlwaysCallable make.now }
{
    for (at, asked) in keys.iter().enumerate() {
        put(map, make(*asked)?, at)?;
    }
    Ok(())
}

/// Whether the map finds the key at this place.
fn is_found<K: Eq + Hash + Drop>(map: &IndexMap<K, usize>, key: K, at: usize) -> bool {
    map.get_index_of(&key) == Some(at)
}

/// Whether the map finds each of these keys at its place, and no others are in it.
fn finds_all<'a, K: Eq + Hash + Drop, F: Fn(KeyParts<'a>) -> Result<K, Unfit>>(
    map: &IndexMap<K, usize>,
    keys: &[KeyParts<'a>],
    make: &F,
) -> Result<bool, Unfit>
    requires { F.IsAlwaysCallable make.now }
{
    for (at, asked) in keys.iter().enumerate() {
        if !is_found(map, make(*asked)?, at) {
            return Ok(false);
        }
    }
    Ok(map.len() == keys.len())
}

/// Fills an empty map with the keys, in their order, and answers whether it finds each at its place.
fn finds_what_is_put<'a, K: Eq + Hash + Drop, F: Fn(KeyParts<'a>) -> Result<K, Unfit>>(
    map: &mut IndexMap<K, usize>,
    keys: &[KeyParts<'a>],
    make: &F,
) -> Result<bool, Unfit>
    requires { F.IsAlwaysCallable make.now }
{
    put_all(map, keys, make)?;
    finds_all(map, keys, make)
}

/// Whether a map of the keys, in their order, finds each at its place.
fn are_found<'a, K: Eq + Hash + Drop, F: Fn(KeyParts<'a>) -> Result<K, Unfit>>(
    alloc: Global,
    keys: &[KeyParts<'a>],
    make: &F,
) -> Result<bool, Unfit>
    requires { F.IsAlwaysCallable make.now }
{
    let mut map = IndexMap::new(alloc);
    finds_what_is_put(&mut map, keys, make)
}

#[test]
fn keys_of_a_map(rt: HostRuntime) {
    let alloc = rt.alloc();
    assert!(rt; are_found(alloc, MAPPED, &|asked| key_of(alloc, asked)) == Ok(true));
}
