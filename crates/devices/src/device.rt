//! Devices, which take or give bytes a few at a time and may fail.
ghost use Rattle.std.specs.Prelude.{◌≡◌, ℕ, List, [], Ok, IfOk};
ghost use Rattle.devices.specs.Devices.{CountsFailures, IsPutCount, PutsSome, TakesSome};

use thiserror::Error;

/// A device failed.
#[derive(Clone, Copy, Debug, PartialEq, Eq, Error)]
#[error("the device failed")]
pub struct DeviceFault;

/// What takes bytes, each call behind those that it holds.
pub trait Sink {
    /// The sink holds these bytes, if it shows contracts what it holds.
    ghost holds: { Self → List ℕ → Type 0 };

    /// How often it failed, up to `u64::MAX`.
    ghost failed: { Self → ℕ };

    /// Appends the first of the bytes, at least one if there is any, and answers how many; a failure appends none.
    fn put(&mut self, bytes: &[u8]) -> Result<usize, DeviceFault>
        ensures count { IfOk result (IsPutCount bytes.now) }
        ensures holds { PutsSome (holds self.old) (holds self.new) bytes.now result }
        ensures counted { CountsFailures result (failed self.old) (failed self.new) }
        ensures none { bytes.now ≡ [] → (result ≡ Ok 0) × (self.new ≡ self.old) };

    /// How often it failed, up to `u64::MAX`.
    fn failures(&self) -> u64
        ensures { result ≡ failed self.now };
}

/// What gives bytes, each call behind those that it gave.
pub trait Feed {
    /// The feed still holds these bytes, if it shows contracts what it holds.
    ghost holds: { Self → List ℕ → Type 0 };

    /// How often it failed, up to `u64::MAX`.
    ghost failed: { Self → ℕ };

    /// Moves bytes to the front of the room and answers how many: none only at the end, or if there is no room. A
    /// failure moves none. What the room has behind them is left open.
    fn take(&mut self, room: &mut [u8]) -> Result<usize, DeviceFault>
        ensures taken { TakesSome (holds self.old) (holds self.new) room.old room.new result }
        ensures counted { CountsFailures result (failed self.old) (failed self.new) }
        ensures none { room.old ≡ [] → (result ≡ Ok 0) × (self.new ≡ self.old) };

    /// How often it failed, up to `u64::MAX`.
    fn failures(&self) -> u64
        ensures { result ≡ failed self.now };
}
