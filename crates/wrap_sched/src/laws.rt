//! The wrapped schedule is valid.
ghost use Rattle.std.specs.Prelude.{ℕ, ◌≡◌, ◌<◌, ◌≤◌, ◌+◌, ◌*◌, length};
ghost use Rattle.std.specs.List.{AllByRecursion};
ghost use Rattle.sched_base.specs.Rows.{task_ticks};
ghost use Rattle.sched_base.specs.Sets.{SetContents, IsLawful, task_at};
ghost use Rattle.sched_base.specs.Scale.{IsScale, Fits, PeriodsDivide, rate_of};
ghost use Rattle.sched_base.specs.Valid.{IsValid};
ghost use Rattle.sched_base.specs.Lanes.{NamesOneOf, lanes_of};
ghost use Rattle.repeat_laws.specs.Repeats.{StandsAgain, repeated_from};
ghost use Rattle.wrap_sched.specs.Offsets.{IsGreatestOffset};
ghost use Rattle.wrap_sched.specs.Spans.{Span};
ghost use Rattle.wrap_sched.specs.Wrapped.{slice_rows, units, wrapped};

/// The law of wrapping: for each lawful set that fits, the rows of its wrapped schedule are a valid schedule of it up to
/// its horizon. In each slice from its offset on a task gets exactly its rate for each unit. This runs nothing: its
/// clauses are the law.
pub fn wrap_law()
    ensures valid { (s : SetContents) (scale : ℕ) → IsLawful s → IsScale s.tasks scale → Fits scale s →
        IsValid s scale (s.horizon * scale) (s.horizon * scale) (wrapped scale s) }
    ensures share { (s : SetContents) (scale : ℕ) → IsLawful s → IsScale s.tasks scale → Fits scale s →
        (slice : Span) → slice.begin < slice.end → (j : ℕ) → j < length s.tasks → (task_at s.tasks j).offset ≤ slice.begin →
        task_ticks (slice_rows scale s.tasks s.processors slice) j (slice.begin * scale) (slice.end * scale)
        ≡ rate_of scale (task_at s.tasks j) * units slice }
{}

/// A task that a row of a wrapped schedule names, running or waiting, is one of the set.
pub fn names_law()
    ensures rows { (s : SetContents) (scale : ℕ) → IsLawful s → IsScale s.tasks scale → Fits scale s →
        AllByRecursion (λ r. NamesOneOf s.tasks r.leaf) (wrapped scale s) }
    ensures lanes { (s : SetContents) (scale : ℕ) → IsLawful s → IsScale s.tasks scale → Fits scale s →
        AllByRecursion (λ rows. AllByRecursion (λ r. NamesOneOf s.tasks r.leaf) rows) (lanes_of s.processors (wrapped scale s)) }
{}

/// The law of wrapping anew: up to the greatest offset and so many further units that each period divides them, the wrapped schedule
/// stands as at the greatest offset. So what it has from there on can be repeated for ever.
pub fn again_law()
    ensures stands { (s : SetContents) (scale : ℕ) → IsLawful s → IsScale s.tasks scale → Fits scale s →
        (from units : ℕ) → IsGreatestOffset s.tasks from → 1 ≤ units → PeriodsDivide s.tasks units → s.horizon ≡ from + units →
        StandsAgain s scale from units (wrapped scale s) }
    ensures valid { (s : SetContents) (scale : ℕ) → IsLawful s → IsScale s.tasks scale → Fits scale s →
        (from units : ℕ) → IsGreatestOffset s.tasks from → 1 ≤ units → PeriodsDivide s.tasks units → s.horizon ≡ from + units → (n : ℕ) →
        IsValid s scale ((from + units) * scale + n * (units * scale)) ((from + units) * scale + n * (units * scale))
        (repeated_from (from * scale) (units * scale) (wrapped scale s) n) }
{}
