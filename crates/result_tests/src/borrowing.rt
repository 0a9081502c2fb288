use answer_fixtures::KeyParts;
use item_ids::Kind;
use run_fixtures::{Given, gives_over_lent};
use std::test::*;

const SOURCE: Given = Given(KeyParts(Kind::Source, "a", ""), "0101000000000000000141");

const HEADER: Given = Given(
    KeyParts(Kind::Header, "a", ""),
    "0401000000000000000000000000000000000000",
);

// The list answers again when it is back.
#[test]
fn runs_over_a_lent_list(rt: HostRuntime) -> Result<(), Fail> {
    assert!(rt; gives_over_lent(rt.alloc(), HEADER, &[SOURCE])?);
    Ok(())
}
