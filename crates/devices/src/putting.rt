//! Writing all of some bytes, whatever a sink takes at a time.
ghost use Rattle.std.specs.Prelude.{flat_map};
ghost use Rattle.devices.specs.Devices.{CountsFailures, Puts};

use crate::device::{DeviceFault, Sink};

/// Appends all of the bytes; if the sink fails it has a beginning of them.
pub fn put_all<W: Sink>(sink: &mut W, bytes: &[u8]) -> Result<(), DeviceFault>
    ensures holds { Puts (W.holds sink.old) (W.holds sink.new) bytes.now result }
    ensures counted { CountsFailures result (W.failed sink.old) (W.failed sink.new) }
{
    let mut at = 0;
    while at < bytes.len() {
        let count = sink.put(&bytes[at..])?;
        at += count;
    }
    Ok(())
}

/// Appends all of the parts, one behind the other; if the sink fails it has a beginning of them.
pub fn put_parts<W: Sink>(sink: &mut W, parts: &[&[u8]]) -> Result<(), DeviceFault>
    ensures holds { Puts (W.holds sink.old) (W.holds sink.new)
        (flat_map (λ part. part.now) parts.now) result }
    ensures counted { CountsFailures result (W.failed sink.old) (W.failed sink.new) }
{
    for part in parts {
        put_all(sink, part)?;
    }
    Ok(())
}
