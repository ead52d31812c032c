//! The answers of the pieces of a text.
ghost use Rattle.std.specs.Prelude.{◌≡◌, ◌≤◌, ◌<◌, ◌^◌, length, slice_get, Some, IfOk};
ghost use Rattle.sched_base.specs.Limits.{set_limit};
ghost use Rattle.batch_compile.specs.Answers.{IsAnswer, IsAnswerOfSet};

use run_compile::{CompileFault, compile, levels};
use sched_base::{NoMemory, TaskSet};
use std::alloc::Global;
use std::marker::Model;
use task_reader::{ReadSet, read_set};

/// The answer of one piece.
#[derive(Debug, Drop)]
pub enum Answer {
    /// The bytes are read as no task set. This is never `ReadSet::NoMemory`.
    Refused(ReadSet),
    /// With task `at` the scale is past 2^94 ticks per unit.
    ScaleTooLarge { at: u32 },
    /// The tasks ask for more than the processors have, both in ticks per unit.
    Overload { total: u128, room: u128 },
    /// The set fits: its scale in ticks per unit, and the number of levels of its compiled tree.
    Fits { scale: u128, levels: u32 },
}

/// The answers of the pieces, in order.
pub struct Answers(Vec<Answer>);

impl Drop for Answers {
    fn drop(self) {
        let Self(_items) = self;
    }
}

impl Model for Answers {
    ghost use Rattle.std.specs.Prelude.{List, ◌<◌, ◌^◌, length};
    ghost use Rattle.batch_compile.specs.declared.answers.Answer.{Answer};

    ghost Value = { List Answer };

    ghost view = { λ a. a.0.items };

    ghost invariant = { λ a. length a.0.items < 2 ^ 32 };
}

impl Answers {
    pub(crate) fn new(items: Vec<Answer>) -> Answers
        requires { length items.items < 2 ^ 32 }
        ensures { result ≡ items.items }
    {
        Answers(items)
    }

    /// How many there are, one for each piece.
    pub fn count(&self) -> u32
        ensures { result ≡ length self.now }
    {
        self.0.len() as u32
    }

    /// The answer of piece j.
    pub fn item(&self, j: u32) -> &Answer
        requires { j < length self.now }
        ensures { slice_get self.now j ≡ Some result.now }
    {
        &self.0[j as usize]
    }
}

/// The answer of these bytes, as `read_set` and `compile` give it.
pub fn answer_of(alloc: Global, bytes: &[u8]) -> Result<Answer, NoMemory>
    requires { length bytes.now ≤ set_limit }
    ensures { IfOk result (IsAnswer bytes.now) }
{
    match read_set(alloc, bytes) {
        Ok(set) => answer_of_set(alloc, set),
        Err(ReadSet::NoMemory) => Err(NoMemory),
        Err(refusal) => Ok(Answer::Refused(refusal)),
    }
}

fn answer_of_set(alloc: Global, set: TaskSet) -> Result<Answer, NoMemory>
    ensures { IfOk result (IsAnswerOfSet set) }
{
    match compile(alloc, set) {
        Ok(plan) => Ok(Answer::Fits {
            scale: plan.tree().scale(),
            levels: levels(&plan),
        }),
        Err(CompileFault::ScaleTooLarge { at }) => Ok(Answer::ScaleTooLarge { at }),
        Err(CompileFault::Overload { total, room }) => Ok(Answer::Overload { total, room }),
        Err(CompileFault::NoMemory) => Err(NoMemory),
    }
}
