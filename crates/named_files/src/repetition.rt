//! Names that stand in a list more than once.
ghost use Rattle.std.specs.Prelude.{◌≡◌, map, IfOk};
ghost use Rattle.named_files.specs.Repeats.{repeats};

use std::alloc::{AllocError, Global};
use std::collections::BTreeSet;

/// For each name, whether it stands earlier in the list, too.
pub fn repeats(alloc: Global, names: &[&str]) -> Result<Vec<bool>, AllocError>
    ensures { IfOk result (λ flags. flags.items ≡ repeats (map (λ name. name.now) names.now)) }
{
    let mut seen = BTreeSet::new(alloc);
    let mut flags = Vec::new(alloc);
    for name in names {
        let is_new = seen.insert(*name)?;
        flags.push(!is_new)?;
    }
    Ok(flags)
}
