//! The traits of streams of bytes.
ghost use Rattle.std.specs.Prelude.{◌≡◌, ℕ, List, ◌≤◌, ◌<◌, length, IfOk};
ghost use Rattle.std.specs.declared.option.Option.{Option};
ghost use Rattle.std.specs.Io.{ReadsAtMost};
ghost use Rattle.std.specs.Io.KnownBytes.{ReadConsumes, WriteAppends};
ghost use Rattle.sched_edges.specs.Causes.{HasCause, Rose};
ghost use Rattle.sched_edges.specs.Memory.{next_call, is_listed};

/// A call to the outside failed. What it was called on has counted the fault.
#[derive(Clone, Copy, PartialEq, Eq)]
pub struct Failed;

// Counts a fault.
pub(crate) fn fault(faults: &mut u64) -> Failed
    ensures later { faults.old ≤ faults.new }
    ensures rose { Rose faults.old faults.new }
{
    *faults = faults.saturating_add(1);
    Failed
}

// Counts a call, and tells whether its number is one of those that fail.
pub(crate) fn call_fails(calls: &mut u64, fails: &[u64]) -> bool
    ensures calls { calls.new ≡ next_call calls.old }
    ensures listed { result ≡ is_listed fails.now calls.new }
{
    *calls = calls.saturating_add(1);
    fails.contains(calls)
}

/// Where bytes come from.
pub trait Source {
    /// The bytes still to come, where it tells them.
    ghost left: { Self → Option (List ℕ) };

    /// How often it has failed. The count never falls.
    ghost faults: { Self → ℕ };

    /// Puts the next bytes into the front of the buffer, and says how many. None for a buffer with room is the end of
    /// the input.
    fn read(&mut self, buffer: &mut [u8]) -> Result<usize, Failed>
        ensures bound { ReadsAtMost result buffer.new }
        ensures bytes { ReadConsumes (left self.old) (left self.new) result buffer.new }
        ensures cause { HasCause (faults self.old) (faults self.new) result };
}

/// Where bytes go to.
pub trait Sink {
    /// The bytes taken so far, where it tells them.
    ghost taken: { Self → Option (List ℕ) };

    /// How often it has failed. The count never falls.
    ghost faults: { Self → ℕ };

    /// Takes the first bytes of the piece, at least one of a piece that has any, and says how many.
    fn write(&mut self, piece: &[u8]) -> Result<usize, Failed>
        ensures bound { IfOk result (λ n. n ≤ length piece.now) }
        ensures some { IfOk result (λ n. 0 < length piece.now → 1 ≤ n) }
        ensures bytes { WriteAppends (taken self.old) (taken self.new) result piece.now }
        ensures cause { HasCause (faults self.old) (faults self.new) result };
}
