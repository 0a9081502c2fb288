//! Parts of ascending lists of places, by binary search.
ghost use Rattle.std.specs.Prelude.{◌≡◌, filter, nat_lt, nat_le};
ghost use Rattle.std.specs.List.Sorted.{IsNonDecreasing};

/// The places before a bound.
pub fn before(places: &[usize], bound: usize) -> &[usize]
    requires { IsNonDecreasing places.now }
    ensures places { result.now ≡ filter (λ at. nat_lt at bound) places.now }
    ensures ascending { IsNonDecreasing result.now }
{
    let count = places.partition_point(|place| *place < bound);
    &places[..count]
}

/// The places from a bound on.
pub fn from(places: &[usize], bound: usize) -> &[usize]
    requires { IsNonDecreasing places.now }
    ensures { result.now ≡ filter (λ at. nat_le bound at) places.now }
{
    let count = places.partition_point(|place| *place < bound);
    &places[count..]
}
