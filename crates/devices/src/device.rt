//! The two ends of a program: where its input comes from, and where its report goes.
ghost use Rattle.std.specs.Prelude.{◌≡◌, ℕ, ◌+◌, ◌<◌, ◌≤◌, List, Option, length, IfOk, is_some};
ghost use Rattle.std.specs.Io.{ReadsAtMost, WritesAtMost};
ghost use Rattle.std.specs.Io.KnownBytes.{ReadConsumes, WriteAppends};
ghost use Rattle.devices.specs.EmptyCalls.{CountsEmpty};
ghost use Rattle.devices.specs.Faults.{HasCause};

use thiserror::Error;

/// A device failed in the call that gives this.
#[derive(Clone, Copy, Debug, PartialEq, Eq, Error)]
#[error("device failed")]
pub struct Failed;

/// Where octets come from.
pub trait Source {
    /// The octets to come, where the source tells them.
    ghost left: { Self → Option (List ℕ) };

    /// How often it has failed.
    ghost faults: { Self → ℕ };

    /// How often it was read, where the source counts that; else 0.
    ghost calls: { Self → ℕ } = { λ _. 0 };

    /// How many of its reads gave no octet, where the source counts them; else 0. A read gives none at the end of the
    /// input, into an empty `buf`, and where it fails.
    ghost empty_reads: { Self → ℕ } = { λ _. 0 };

    /// Reads the next octets into the front of `buf`, and gives how many. For a `buf` that isn't
    /// empty, 0 means the end of the input.
    ///
    /// Fails where the device does; the octets to come are then as they were.
    fn read(&mut self, buf: &mut [u8]) -> Result<usize, Failed>
        ensures bound { ReadsAtMost result buf.new }
        // The octets read are the next ones. 0 for a `buf` that isn't empty comes only where none is
        // left.
        ensures bytes { ReadConsumes (left self.old) (left self.new) result buf.new }
        ensures keeps_telling { is_some (left self.new) ≡ is_some (left self.old) }
        ensures counted { calls self.new ≤ calls self.old + 1 }
        ensures empty { CountsEmpty (empty_reads self.old) (empty_reads self.new) result }
        ensures cause { HasCause (faults self.old) (faults self.new) result };
}

/// Where octets go.
pub trait Sink {
    /// The octets that it holds, where the sink tells them.
    ghost held: { Self → Option (List ℕ) };

    /// How often it has failed.
    ghost faults: { Self → ℕ };

    /// How many of its writes took no octet, where the sink counts them; else 0. A write takes none of an empty
    /// `bytes`, and where it fails.
    ghost empty_writes: { Self → ℕ } = { λ _. 0 };

    /// Appends octets from the front of `bytes`, and gives how many: at least one, unless `bytes` is
    /// empty.
    ///
    /// Fails where the device does; nothing is appended then.
    fn write(&mut self, bytes: &[u8]) -> Result<usize, Failed>
        ensures bound { WritesAtMost result bytes.now }
        ensures progress { IfOk result (λ count. 0 < length bytes.now → 0 < count) }
        ensures bytes { WriteAppends (held self.old) (held self.new) result bytes.now }
        ensures keeps_telling { is_some (held self.new) ≡ is_some (held self.old) }
        ensures empty { CountsEmpty (empty_writes self.old) (empty_writes self.new) result }
        ensures cause { HasCause (faults self.old) (faults self.new) result };
}
