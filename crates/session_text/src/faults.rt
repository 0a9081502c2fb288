//! The words for why a file is that of no session.
ghost use Rattle.std.specs.Prelude.{◌≡◌, ◌≢◌, ◌++◌, OnOk, string_bytes};
ghost use Rattle.session_text.specs.FaultWords.{fault_words};

use session_file::FileFault;
use std::alloc::AllocError;
use std::fmt::Write;

/// Adds why a file is that of no session to a text: the fault's number and name, and the record and the edge at which it
/// stands. Out of memory has no words, and is answered.
pub fn write_fault(text: &mut String, fault: FileFault) -> Result<(), AllocError>
    ensures written { OnOk result
        (string_bytes text.new ≡ string_bytes text.old ++ fault_words fault) }
    ensures told { OnOk result (fault ≢ FileFault.OutOfMemory) }
{
    match fault {
        FileFault::BadMagic => text.push_str("11.1 BadMagic"),
        FileFault::Version => text.push_str("11.2 Version"),
        FileFault::Truncated => text.push_str("11.3 Truncated"),
        FileFault::BadDigest => text.push_str("11.4 BadDigest"),
        FileFault::KeyOrder(n) => write!(text, "11.5 KeyOrder({n})"),
        FileFault::BadEdge(n, i) => write!(text, "11.6 BadEdge({n}, {i})"),
        FileFault::Result(n) => write!(text, "11.7 Result({n})"),
        FileFault::InputKind(n) => write!(text, "11.8 InputKind({n})"),
        FileFault::Trailing => text.push_str("11.9 Trailing"),
        FileFault::Device => text.push_str("11.10 Device"),
        FileFault::BadKey(n) => write!(text, "11.11 BadKey({n})"),
        FileFault::Number => text.push_str("11.12 Number"),
        FileFault::NoPastResult(n) => write!(text, "11.13 NoPastResult({n})"),
        FileFault::OutOfMemory => Err(AllocError),
    }
}
