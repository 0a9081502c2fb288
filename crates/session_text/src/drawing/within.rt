//! Which records are drawn.
ghost use Rattle.std.specs.Prelude.{◌≡◌, ◌<◌, IfOk, IfSome, Some, length, replicate};
ghost use Rattle.std.specs.List.{AllByRecursion};
ghost use Rattle.sessions.specs.Sessions.{AreRecords};
ghost use Rattle.session_text.specs.Within.{AreDrawn};
ghost use Rattle.session_text.specs.Flags.{with_flags};

use sessions::Record;
use std::alloc::{AllocError, Global};

/// For each record whether it is drawn: all, or what lies within one of them.
pub(crate) fn drawn(
    alloc: Global,
    records: &[Record],
    of: Option<usize>,
) -> Result<Vec<bool>, AllocError>
    requires records { AreRecords records.now }
    requires inside { IfSome of (λ root. root < length records.now) }
    ensures { IfOk result (λ flags. AreDrawn records.now of flags.items) }
{
    match of {
        None => flags_for(alloc, records, true),
        Some(root) => within(alloc, records, root),
    }
}

/// A flag for each record.
fn flags_for(alloc: Global, records: &[Record], flag: bool) -> Result<Vec<bool>, AllocError>
    ensures { IfOk result (λ flags. flags.items ≡ replicate (length records.now) flag) }
{
    vec![in alloc; flag; records.len()]
}

/// Edges lead to records in front, so that one walk from the record down finds all that lies within it.
fn within(alloc: Global, records: &[Record], root: usize) -> Result<Vec<bool>, AllocError>
    requires records { AreRecords records.now }
    requires inside { root < length records.now }
    ensures { IfOk result (λ flags. AreDrawn records.now (Some root) flags.items) }
{
    let mut flags = flags_for(alloc, records, false)?;
    flags[root] = true;
    for at in (0..root + 1).rev() {
        if flags[at] {
            flag_all(&mut flags, records[at].edges());
        }
    }
    Ok(flags)
}

/// Flags each of these indices.
fn flag_all(flags: &mut [bool], edges: &[usize])
    requires { AllByRecursion (λ e. e < length flags.old) edges.now }
    ensures { flags.new ≡ with_flags flags.old edges.now }
{
    for edge in edges {
        flags[*edge] = true;
    }
}
