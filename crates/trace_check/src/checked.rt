//! Traces that were read and judged, and whose rows nobody asks for in another order than that of their lines.
ghost use Rattle.std.specs.Prelude.{◌≡◌, ◌<◌, ◌+◌, ◌*◌, ◌↔◌, length, IfOk};
ghost use Rattle.sched_base.specs.Valid.{IsValid};
ghost use Rattle.trace_verdict.specs.Faults.{line_of_row, IsTrace, IsVerdict};
ghost use Rattle.trace_verdict.specs.Findings.{AreTold, IsToldOfTask};

use row_judgments::{Judged, judge_rows};
use sched_base::{NoMemory, TaskSet};
use std::alloc::Global;
use std::marker::Model;
use trace_verdict::{FIRST_TASK_LINE, Findings, RowList, Verdict};

/// A trace: a set, its scale and rows in the order of their lines, with the verdict on them and what was found of each task,
/// which are made with it.
pub struct CheckedTrace {
    set: TaskSet,
    scale: u128,
    rows: RowList,
    judged: Judged,
}

impl Drop for CheckedTrace {
    fn drop(self) {
        let Self {
            set: _set,
            scale: _scale,
            rows: _rows,
            judged: _judged,
        } = self;
    }
}

impl Model for CheckedTrace {
    ghost use Rattle.trace_check.specs.Traces.{Trace, IsJudged};

    ghost Value = { Trace };

    ghost view = { λ t. record { set = t.set; scale = t.scale; rows = t.rows } };

    ghost invariant = { λ t. IsJudged (record {
      set = t.set;
      scale = t.scale;
      rows = t.rows;
    }) t.judged.found.items t.judged.verdict };
}

impl CheckedTrace {
    ghost use Rattle.trace_check.specs.Traces.{Trace};

    /// The trace of this set and these rows.
    pub(crate) fn new(
        alloc: Global,
        set: TaskSet,
        scale: u128,
        rows: RowList,
    ) -> Result<CheckedTrace, NoMemory>
        requires { IsTrace set scale rows }
        ensures { IfOk result (λ t. t ≡ record { set = set; scale = scale; rows = rows }) }
    {
        let judged = judge_rows(alloc, &set, scale, &rows)?;
        Ok(CheckedTrace::of(set, scale, rows, judged))
    }

    /// The trace of this set and these rows, which are judged.
    pub(crate) fn of(set: TaskSet, scale: u128, rows: RowList, judged: Judged) -> CheckedTrace
        requires trace { IsTrace set scale rows }
        requires told { AreTold set scale rows judged.found.items }
        requires all { judged.verdict ≡ Verdict.Valid → length judged.found.items ≡ length set.tasks }
        requires verdict { IsVerdict set scale rows judged.verdict }
        ensures { result ≡ record { set = set; scale = scale; rows = rows } }
    {
        CheckedTrace {
            set,
            scale,
            rows,
            judged,
        }
    }

    /// The set.
    pub fn set(&self) -> &TaskSet
        ensures { result.now ≡ self.now.set }
    {
        &self.set
    }

    /// The ticks of one unit.
    pub fn scale(&self) -> u128
        ensures { result ≡ self.now.scale }
    {
        self.scale
    }

    /// The rows, in the order of their lines.
    pub fn rows(&self) -> &RowList
        ensures value { result.now ≡ self.now.rows }
        ensures lawful { IsTrace self.now.set self.now.scale self.now.rows }
    {
        &self.rows
    }

    /// The line of row i, counted from 1.
    pub fn line(&self, i: usize) -> u64
        requires { i < length self.now.rows }
        ensures { result ≡ line_of_row self.now.set i }
    {
        FIRST_TASK_LINE + u64::from(self.set.count()) + i as u64
    }

    /// Whether the rows are a valid schedule of the set, and else the first line at fault and why. It takes no memory.
    pub fn verdict(&self) -> Verdict
        ensures verdict { IsVerdict self.now.set self.now.scale self.now.rows result }
        ensures valid { (result ≡ Verdict.Valid) ↔ IsValid self.now.set self.now.scale (self.now.set.horizon * self.now.scale)
            (self.now.set.horizon * self.now.scale) self.now.rows }
    {
        self.judged.verdict
    }

    /// What a task's rows tell of its jobs, where the rows are a valid schedule.
    pub fn findings(&self, task: u32) -> Findings
        requires task { task < length self.now.set.tasks }
        requires valid { IsValid self.now.set self.now.scale (self.now.set.horizon * self.now.scale)
            (self.now.set.horizon * self.now.scale) self.now.rows }
        ensures told { IsToldOfTask self.now.set self.now.scale self.now.rows task result }
        ensures lawful { IsTrace self.now.set self.now.scale self.now.rows }
    {
        self.judged.found[task as usize]
    }
}
