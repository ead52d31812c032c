//! Sets of periodic tasks.
ghost use Rattle.std.specs.Prelude.{◌≡◌, ◌≤◌, ◌<◌, ◌^◌, ◌+◌, true, [], ◌∷◌, ◌++◌, length, slice_get, Some, OnOk};
ghost use Rattle.std.specs.Prelude.{OnErr, IfSome, IfNone};
ghost use Rattle.std.specs.Prelude.{IfOk, IsTrue, ◌↔◌, option_map};
ghost use Rattle.sched_base.specs.Names.{is_lawful_name};
ghost use Rattle.sched_base.specs.Limits.{processor_limit, task_limit};
ghost use Rattle.sched_base.specs.Sets.{IsFree, IsLawful};

use crate::memory::NoMemory;
use crate::names::Name;
use std::alloc::Global;
use std::marker::Model;

/// A periodic task: at its offset, and then each time a period has passed, it is given work that is due at the next
/// release. All three numbers are in units.
#[derive(Drop)]
pub struct Task {
    pub name: Name,
    /// From 1 to the period.
    pub work: u64,
    /// From 1 to `UNIT_LIMIT`.
    pub period: u64,
    /// The first release, from 0 to `UNIT_LIMIT`.
    pub offset: u64,
}

/// A set of at most `TASK_LIMIT` tasks with different names, with the number of processors (1 to `PROCESSOR_LIMIT`) and the
/// horizon of its schedule (1 to `UNIT_LIMIT` units).
pub struct TaskSet {
    processors: u32,
    horizon: u64,
    tasks: Vec<Task>,
}

impl Drop for TaskSet {
    fn drop(self) {
        let Self {
            processors: _processors,
            horizon: _horizon,
            tasks: _tasks,
        } = self;
    }
}

impl Model for TaskSet {
    ghost use Rattle.sched_base.specs.Sets.{SetContents, IsLawful};

    ghost Value = { SetContents };

    ghost view = { λ s. record { processors = s.processors; horizon = s.horizon; tasks = s.tasks.items } };

    ghost invariant = { λ s. IsLawful (record { processors = s.processors; horizon = s.horizon; tasks = s.tasks.items }) };
}

impl TaskSet {
    ghost use Rattle.sched_base.specs.Sets.{SetContents};

    /// A set with no task. It takes no memory.
    pub fn start(alloc: Global, processors: u32, horizon: u64) -> TaskSet
        requires some_processors { 1 ≤ processors }
        requires few_processors { processors ≤ processor_limit }
        requires some_horizon { 1 ≤ horizon }
        requires horizon_fits { horizon < 2 ^ 32 }
        ensures processors { result.processors ≡ processors }
        ensures horizon { result.horizon ≡ horizon }
        ensures tasks { result.tasks ≡ [] }
    {
        TaskSet {
            processors,
            horizon,
            tasks: Vec::new(alloc),
        }
    }

    /// Adds a task at the end, first released at unit 0: its work and its period in units. A want of memory leaves the set as it was.
    pub fn add(&mut self, name: &[u8], work: u64, period: u64) -> Result<(), NoMemory>
        requires room { length self.old.tasks < task_limit }
        requires lawful { is_lawful_name name.now ≡ true }
        requires free { IsFree name.now self.old.tasks }
        requires some_work { 1 ≤ work }
        requires work_fits { work ≤ period }
        requires period_fits { period < 2 ^ 32 }
        ensures ok { OnOk result (self.new ≡ record self.old {
          tasks = self.old.tasks ++
              (record { name = name.now; work = work; period = period; offset = 0 }) ∷ [];
        }) }
        ensures err { OnErr result (self.new ≡ self.old) }
    {
        self.add_late(name, work, period, 0)
    }

    /// Adds a task at the end, first released at the offset: its work, its period and its offset in units. A want of memory leaves the set
    /// as it was.
    pub fn add_late(
        &mut self,
        name: &[u8],
        work: u64,
        period: u64,
        offset: u64,
    ) -> Result<(), NoMemory>
        requires room { length self.old.tasks < task_limit }
        requires lawful { is_lawful_name name.now ≡ true }
        requires free { IsFree name.now self.old.tasks }
        requires some_work { 1 ≤ work }
        requires work_fits { work ≤ period }
        requires period_fits { period < 2 ^ 32 }
        requires offset_fits { offset < 2 ^ 32 }
        ensures ok { OnOk result (self.new ≡ record self.old {
          tasks = self.old.tasks ++
              (record { name = name.now; work = work; period = period; offset = offset }) ∷ [];
        }) }
        ensures err { OnErr result (self.new ≡ self.old) }
    {
        let task = Task {
            name: Name::new(name),
            work,
            period,
            offset,
        };
        self.tasks.push(task)?;
        Ok(())
    }

    /// A copy of the set.
    pub fn copy(&self) -> Result<TaskSet, NoMemory>
        ensures { IfOk result (λ s. s ≡ self.now) }
    {
        let mut tasks = Vec::new(*self.tasks.allocator());
        for task in &self.tasks {
            tasks.push(Task {
                name: Name::new(task.name.as_slice()),
                work: task.work,
                period: task.period,
                offset: task.offset,
            })?;
        }
        Ok(TaskSet {
            processors: self.processors,
            horizon: self.horizon,
            tasks,
        })
    }

    /// Brings what each set keeps into the proof of its caller; it does nothing.
    pub fn know_lawful(&self)
        ensures lawful { IsLawful self.now }
    {
        let _tasks = &self.tasks;
    }

    /// The number of processors.
    pub fn processors(&self) -> u32
        ensures value { result ≡ self.now.processors }
        ensures lawful { IsLawful self.now }
    {
        self.processors
    }

    /// The horizon, in units.
    pub fn horizon(&self) -> u64
        ensures value { result ≡ self.now.horizon }
        ensures lawful { IsLawful self.now }
    {
        self.horizon
    }

    /// The number of tasks.
    pub fn count(&self) -> u32
        ensures value { result ≡ length self.now.tasks }
        ensures lawful { IsLawful self.now }
    {
        self.tasks.len() as u32
    }

    /// The tasks, in order.
    pub fn tasks(&self) -> &[Task]
        ensures value { result.now ≡ self.now.tasks }
        ensures lawful { IsLawful self.now }
    {
        self.tasks.as_slice()
    }

    /// The name of task i.
    pub fn name(&self, i: u32) -> &[u8]
        requires { i < length self.now.tasks }
        ensures value { option_map (λ t. t.name) (slice_get self.now.tasks i) ≡ Some result.now }
    {
        self.tasks[i as usize].name.as_slice()
    }

    /// The work of task i, in units.
    pub fn work(&self, i: u32) -> u64
        requires { i < length self.now.tasks }
        ensures value { option_map (λ t. t.work) (slice_get self.now.tasks i) ≡ Some result }
    {
        self.tasks[i as usize].work
    }

    /// The period of task i, in units.
    pub fn period(&self, i: u32) -> u64
        requires { i < length self.now.tasks }
        ensures value { option_map (λ t. t.period) (slice_get self.now.tasks i) ≡ Some result }
    {
        self.tasks[i as usize].period
    }

    /// The offset of task i, in units.
    pub fn offset(&self, i: u32) -> u64
        requires { i < length self.now.tasks }
        ensures value { option_map (λ t. t.offset) (slice_get self.now.tasks i) ≡ Some result }
    {
        self.tasks[i as usize].offset
    }

    /// The task of this name.
    pub fn find(&self, name: &[u8]) -> Option<u32>
        ensures found { IfSome result (λ i. option_map (λ t. t.name) (slice_get self.now.tasks i) ≡ Some name.now) }
        ensures absent { IfNone result (IsFree name.now self.now.tasks) }
    {
        match place_of(&self.tasks, name) {
            Some(i) => Some(i as u32),
            None => None,
        }
    }

    /// Whether both are the same set.
    pub fn is_same(&self, other: &TaskSet) -> bool
        ensures { IsTrue result ↔ (self.now ≡ other.now) }
    {
        self.processors == other.processors
            && self.horizon == other.horizon
            && are_same(&self.tasks, &other.tasks)
    }
}

fn place_of(tasks: &[Task], name: &[u8]) -> Option<usize>
    ensures found { IfSome result (λ i. (i < length tasks.now) × (option_map (λ t. t.name) (slice_get tasks.now i) ≡ Some name.now)) }
    ensures absent { IfNone result (IsFree name.now tasks.now) }
{
    for (i, task) in tasks.iter().enumerate() {
        if is_same_text(task.name.as_slice(), name) {
            return Some(i);
        }
    }
    None
}

fn are_same(left: &[Task], right: &[Task]) -> bool
    ensures { IsTrue result ↔ (left.now ≡ right.now) }
{
    if left.len() != right.len() {
        return false;
    }
    for i in 0..left.len() {
        if !is_same_task(&left[i], &right[i]) {
            return false;
        }
    }
    true
}

fn is_same_task(a: &Task, b: &Task) -> bool
    ensures { IsTrue result ↔ (a.now ≡ b.now) }
{
    is_same_text(a.name.as_slice(), b.name.as_slice())
        && a.work == b.work
        && a.period == b.period
        && a.offset == b.offset
}

fn is_same_text(a: &[u8], b: &[u8]) -> bool
    ensures { IsTrue result ↔ (a.now ≡ b.now) }
{
    a == b
}
