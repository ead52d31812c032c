//! The set that words draw.
ghost use Rattle.std.specs.Prelude.{◌≡◌, ◌≤◌, ◌<◌, ◌^◌, ◌*◌, ◌+◌, ◌%◌, ℕ, List, length, IfOk};
ghost use Rattle.std.specs.Int.{◌∣◌};
ghost use Rattle.sched_base.specs.Sets.{IsLawful};
ghost use Rattle.sched_base.specs.Scale.{IsScale, Fits};
ghost use Rattle.task_gen.specs.Drill.{period_by, name_of_number, made_from};

use itoa::Buffer;
use sched_base::{Name, NoMemory, TaskSet};
use std::alloc::Global;

const PROCESSORS: u32 = 4;

/// In units.
const HORIZON: u64 = 6000;

/// In units. Each divides 60.
const PERIODS: [u64; 8] = [4, 5, 6, 10, 12, 15, 20, 30];

/// The sum of the weights that 4 processors have room for, in sixtieths of a processor.
const ROOM: u64 = 240;

/// The set that 64 pairs of words draw, for 4 processors and a horizon of 6000 units.
///
/// The first word of a pair chooses a period, the second a work. Their task is added where it still fits, else left out.
pub fn make(alloc: Global, words: &[u32]) -> Result<TaskSet, NoMemory>
    requires { length words.now ≡ 128 }
    ensures { IfOk result (λ set. set ≡ made_from words.now) }
{
    let mut set = TaskSet::start(alloc, PROCESSORS, HORIZON);
    let mut load = 0;
    for j in 0..64 {
        let period = period_by(words[2 * j]);
        let work = work_by(words[2 * j + 1], period);
        let weight = work * 60 / period;
        if load + weight <= ROOM {
            set.add(name_of(set.count()).as_slice(), work, period)?;
            load += weight;
        }
    }
    Ok(set)
}

/// Each set that words draw is lawful and fits, and its scale divides 60. This runs nothing: its clauses are the law.
pub fn drill_law()
    ensures lawful { (words : List ℕ) → length words ≡ 128 → IsLawful (made_from words) }
    ensures fits { (words : List ℕ) (scale : ℕ) → IsScale (made_from words).tasks scale → Fits scale (made_from words) }
    ensures divides { (words : List ℕ) (scale : ℕ) → IsScale (made_from words).tasks scale → scale ∣ 60 }
    ensures small { (words : List ℕ) (scale : ℕ) → IsScale (made_from words).tasks scale → scale ≤ 60 }
{}

/// The period that a word chooses, in units.
fn period_by(word: u32) -> u64
    ensures { result ≡ period_by word }
{
    PERIODS[word as usize % 8]
}

/// The work that a word chooses for a task of this period, in units: from 1 to the period.
fn work_by(word: u32, period: u64) -> u64
    requires some { 1 ≤ period }
    requires fits { period < 2 ^ 32 }
    ensures { result ≡ 1 + word % period }
{
    1 + u64::from(word) % period
}

/// The name of the k-th task of a set, counted from 0.
fn name_of(k: u32) -> Name
    ensures { result ≡ name_of_number k }
{
    let mut buffer = Buffer::new();
    let digits = buffer.format(k).as_bytes();
    let mut bytes = [0; 32];
    bytes[0] = b't';
    let end = 1 + digits.len();
    bytes[1..end].copy_from_slice(digits);
    Name::new(&bytes[..end])
}
