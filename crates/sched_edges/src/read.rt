//! Reading a source to its end.
ghost use Rattle.std.specs.Prelude.{◌≡◌, ◌≤◌, ◌<◌, ◌+◌, ◌++◌, ℕ, length, IfOk, OnOk, OnErr, [], Err};
ghost use Rattle.std.specs.Io.KnownBytes.{Consumes, IsAtEnd};
ghost use Rattle.sched_edges.specs.Causes.{Rose};
ghost use Rattle.sched_edges.specs.Streams.{GaveAll, GaveCount, GaveAtMost, HoldsAtMost, HoldsMore};

use crate::streams::Source;
use std::alloc::{AllocError, Global};
use std::marker::Model;

/// The most bytes that are asked of a source at once.
const PIECE: usize = 65_536;

/// Why a source wasn't read to its end.
#[derive(Clone, Copy, PartialEq, Eq)]
pub enum TakeFault {
    /// The source failed.
    Read,
    /// The source gave one byte more than the limit. The count is the number of bytes that it gave.
    TooLong { count: u64 },
    /// Memory was refused.
    NoMemory,
}

impl From<AllocError> for TakeFault {
    ghost use Rattle.std.specs.Prelude.{◌≡◌};
    ghost use Rattle.sched_edges.specs.declared.read.TakeFault.TheVariants.{NoMemory};

    ghost from_gives = { λ _ e. e ≡ NoMemory };

    fn from(_: AllocError) -> Self {
        TakeFault::NoMemory
    }
}

/// Bytes that were read.
pub struct Bytes {
    items: Vec<u8>,
}

impl Drop for Bytes {
    fn drop(self) {
        let Self { items: _items } = self;
    }
}

impl Model for Bytes {
    ghost use Rattle.std.specs.Prelude.{ℕ, List};

    ghost Value = { List ℕ };

    ghost view = { λ b. b.items.items };
}

impl Bytes {
    /// The bytes, in order.
    pub fn as_slice(&self) -> &[u8]
        ensures { result.now ≡ self.now }
    {
        self.items.as_slice()
    }
}

/// Reads a source to its end, and never more than one byte past the limit.
///
/// It asks for pieces of at most 65,536 bytes, and each turn but the last takes at least one byte. Where it fails, what
/// the source gave is lost.
pub fn read_all<R: Source>(alloc: Global, source: &mut R, limit: usize) -> Result<Bytes, TakeFault>
    ensures all { IfOk result (GaveAll (R.left source.old) (R.left source.new) limit) }
    ensures fits { OnOk result (HoldsAtMost limit (R.left source.old)) }
    ensures too_long { (count : ℕ) → result ≡ Err (TakeFault.TooLong count) → (count ≡ limit + 1)
        × GaveCount (R.left source.old) (R.left source.new) count }
    ensures exceeds { (count : ℕ) → result ≡ Err (TakeFault.TooLong count) → HoldsMore limit (R.left source.old) }
    ensures bounded { OnErr result (GaveAtMost (R.left source.old) (R.left source.new) (limit + 1)) }
    ensures unfinished { result ≡ Err TakeFault.Read → GaveAtMost (R.left source.old) (R.left source.new) limit }

    ensures later { R.faults source.old ≤ R.faults source.new }
    ensures read { result ≡ Err TakeFault.Read → Rose (R.faults source.old) (R.faults source.new) }
{
    let mut piece = empty_piece(alloc)?;
    let mut bytes = Vec::new(alloc);
    read_rest(source, &mut piece, &mut bytes, limit)?;
    Ok(Bytes { items: bytes })
}

/// A buffer with room for a piece, of 65,536 bytes. Its length stays out of the contract, so that no proof looks into so long a list.
pub fn empty_piece(alloc: Global) -> Result<Vec<u8>, AllocError>
    ensures { IfOk result (λ piece. 0 < length piece.items) }
{
    vec![in alloc; 0u8; PIECE]
}

// Reads to the end, by way of a buffer that has room.
fn read_rest<R: Source>(
    source: &mut R,
    buffer: &mut [u8],
    bytes: &mut Vec<u8>,
    limit: usize,
) -> Result<(), TakeFault>
    requires some { 0 < length buffer.old }
    requires none { bytes.old.items ≡ [] }
    ensures all { OnOk result (GaveAll (R.left source.old) (R.left source.new) limit bytes.new.items) }
    ensures too_long { (count : ℕ) → result ≡ Err (TakeFault.TooLong count) → (count ≡ limit + 1)
        × GaveCount (R.left source.old) (R.left source.new) count }
    ensures bounded { OnErr result (GaveAtMost (R.left source.old) (R.left source.new) (limit + 1)) }
    ensures unfinished { result ≡ Err TakeFault.Read → GaveAtMost (R.left source.old) (R.left source.new) limit }
    ensures later { R.faults source.old ≤ R.faults source.new }
    ensures read { result ≡ Err TakeFault.Read → Rose (R.faults source.old) (R.faults source.new) }
{
    loop {
        let want = (limit - bytes.len()).min(buffer.len() - 1) + 1;
        let count = read_piece(source, &mut buffer[..want], bytes)?;
        if count == 0 {
            return Ok(());
        }
        if bytes.len() > limit {
            return Err(TakeFault::TooLong {
                count: bytes.len() as u64,
            });
        }
    }
}

/// Reads once into the piece, and puts what came after the bytes.
pub fn read_piece<R: Source>(
    source: &mut R,
    piece: &mut [u8],
    bytes: &mut Vec<u8>,
) -> Result<usize, TakeFault>
    requires { 0 < length piece.old }
    ensures count { IfOk result (λ n. n ≤ length piece.old) }
    ensures grows { IfOk result (λ n. (more : _) × (length more ≡ n)
        × (bytes.new.items ≡ bytes.old.items ++ more) × Consumes (R.left source.old) (R.left source.new) more) }
    ensures end { IfOk result (λ n. n ≡ 0 → IsAtEnd (R.left source.new)) }
    ensures short { (count : ℕ) → result ≡ Err (TakeFault.TooLong count) → ⊥ }
    ensures bounded { OnErr result (GaveAtMost (R.left source.old) (R.left source.new) (length piece.old)) }
    ensures none { result ≡ Err TakeFault.Read → GaveAtMost (R.left source.old) (R.left source.new) 0 }
    ensures later { R.faults source.old ≤ R.faults source.new }
    ensures read { result ≡ Err TakeFault.Read → Rose (R.faults source.old) (R.faults source.new) }
{
    match source.read(piece) {
        Ok(count) => {
            bytes.extend_from_slice(&piece[..count])?;
            Ok(count)
        }
        Err(_) => Err(TakeFault::Read),
    }
}
