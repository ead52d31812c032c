//! The text that says which program each task's job runs.
ghost use Rattle.std.specs.Prelude.{◌≡◌, ◌≤◌, ◌<◌, length, Ok, Some, IfOk, IfErr, option_map, slice_get};
ghost use Rattle.job_vm.specs.Faults.{NamesBadLine};
ghost use Rattle.job_vm.specs.Programs.{reading};

use crate::faults::JobTextFault;
use crate::programs::{Programs, ReadProgram, cut_line, is_tasks, read_line};
use std::alloc::Global;
use std::marker::Model;

/// The programs of a job text, in the order of their lines, and where its set begins.
#[derive(Drop)]
pub struct JobText {
    programs: Vec<ReadProgram>,
    set_start: usize,
}

impl Model for JobText {
    ghost use Rattle.std.specs.Prelude.{◌<◌, ◌^◌, length};
    ghost use Rattle.job_vm.specs.Programs.{JobTextHeld};

    ghost Value = { JobTextHeld };

    ghost view = { λ t. record { programs = t.programs.items; set_start = t.set_start } };

    ghost invariant = { λ t. length t.programs.items < 2 ^ 32 };
}

impl JobText {
    /// The number of programs.
    pub fn count(&self) -> u32
        ensures { result ≡ length self.now.programs }
    {
        self.programs.len() as u32
    }

    /// The name of the task whose program is program j.
    pub fn name(&self, j: u32) -> &[u8]
        requires { j < length self.now.programs }
        ensures { option_map (λ p. p.name) (slice_get self.now.programs j) ≡ Some result.now }
    {
        self.programs[j as usize].name()
    }

    /// The number of the line that begins program j, counted from 1.
    pub fn line(&self, j: u32) -> u64
        requires { j < length self.now.programs }
        ensures { option_map (λ p. p.line) (slice_get self.now.programs j) ≡ Some result }
    {
        self.programs[j as usize].line()
    }

    /// The words of program j.
    pub fn code(&self, j: u32) -> &[u64]
        requires { j < length self.now.programs }
        ensures { option_map (λ p. p.code) (slice_get self.now.programs j) ≡ Some result.now }
    {
        self.programs[j as usize].code()
    }

    /// The programs.
    pub(crate) fn programs(&self) -> &[ReadProgram]
        ensures { result.now ≡ self.now.programs }
    {
        self.programs.as_slice()
    }

    /// The index of the byte behind the line `tasks`, where the text of the set begins.
    pub fn set_start(&self) -> usize
        ensures { result ≡ self.now.set_start }
    {
        self.set_start
    }
}

/// Reads a job text up to the line `tasks`; of what stands behind it nothing is judged. `BadProgram` tells the least line at
/// fault.
pub fn read_jobs(alloc: Global, bytes: &[u8]) -> Result<JobText, JobTextFault>
    ensures text { IfOk result (λ t. reading bytes.now ≡ Ok t) }
    ensures within { IfOk result (λ t. t.set_start ≤ length bytes.now) }
    ensures fault { IfErr result (NamesBadLine (reading bytes.now)) }
{
    if bytes.is_empty() {
        return Err(JobTextFault::BadProgram { line: 1 });
    }
    let (head, mut rest) = cut_line(bytes);
    if head != b"run-jobs 1".as_slice() {
        return Err(JobTextFault::BadProgram { line: 1 });
    }
    let mut programs = Programs::new(alloc);
    let mut count = 0;
    let mut at = 2;
    while !rest.is_empty() {
        let (line, next) = cut_line(rest);
        if is_tasks(line) {
            let set_start = bytes.len() - next.len();
            return Ok(JobText {
                programs: programs.into_list(),
                set_start,
            });
        }
        count = match read_line(alloc, &mut programs, count, at, line, next) {
            Ok(count) => count,
            Err(fault) => return Err(fault),
        };
        rest = next;
        at += 1;
    }
    Err(JobTextFault::BadProgram { line: at })
}
