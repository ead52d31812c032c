//! Valid schedules that begin anew are valid.
ghost use Rattle.std.specs.Prelude.{ℕ, ◌+◌, ◌-◌, ◌*◌, ◌%◌, ◌<◌, ◌≤◌, ◌≡◌, ◌↔◌, true, List};
ghost use Rattle.sched_base.specs.declared.rows.Row.{Row};
ghost use Rattle.sched_base.specs.declared.sets.Task.{Task};
ghost use Rattle.sched_base.specs.Lanes.{rows_on};
ghost use Rattle.sched_base.specs.Scale.{IsScale, PeriodsDivide};
ghost use Rattle.sched_base.specs.Sets.{SetContents};
ghost use Rattle.sched_base.specs.Valid.{IsValid};
ghost use Rattle.repeat_laws.specs.Repeats.{repeated, up_to, CanRepeat, repeated_from, StandsAgain, NoneIsOpen};
ghost use Rattle.repeat_laws.specs.Repeats.{stands_again, repeat_unit, ComesAgain};

/// The law of repetition: where no task has an offset and each period divides the horizon, the rows of a valid schedule, n times one
/// after the other, are a valid schedule of the set up to n times its horizon. This holds of whatever rows are valid and of all n, so
/// they can be repeated for ever; and a first part of that serves each period that has ended. Each processor repeats its own rows.
pub fn repeat_law()
    ensures whole { (s : SetContents) (scale : ℕ) (rows : List Row) → CanRepeat s →
        IsValid s scale (s.horizon * scale) (s.horizon * scale) rows → (n : ℕ) →
        IsValid (up_to (n * s.horizon) s) scale (n * s.horizon * scale) (n * s.horizon * scale) (repeated (s.horizon * scale) rows n) }
    ensures sooner { (s : SetContents) (scale : ℕ) (rows : List Row) → CanRepeat s →
        IsValid s scale (s.horizon * scale) (s.horizon * scale) rows → (n horizon : ℕ) → horizon ≤ n * (s.horizon * scale) →
        IsValid s scale horizon (n * (s.horizon * scale)) (repeated (s.horizon * scale) rows n) }
    ensures lanes { (p ticks : ℕ) (rows : List Row) (n : ℕ) → rows_on p (repeated ticks rows n) ≡ repeated ticks (rows_on p rows) n }
{}

/// The law of horizons: those that each period divides are the multiples of the scale. So the scale, as a number of units, is the
/// least horizon at which a schedule without offsets can be repeated.
pub fn horizon_law()
    ensures { (tasks : List Task) (scale horizon : ℕ) → IsScale tasks scale → PeriodsDivide tasks horizon ↔ (horizon % scale ≡ 0) }
{}

/// The law of repetition from a unit on: where the rows stand at unit `from + units` as at unit `from`, what they have from there on
/// can be repeated for ever, whatever offsets the tasks have. Where no period is open at unit `from`, whatever rows do.
pub fn repeat_from_law()
    ensures valid { (s : SetContents) (scale from units : ℕ) (rows : List Row) → StandsAgain s scale from units rows →
        IsValid s scale ((from + units) * scale) ((from + units) * scale) rows → (n : ℕ) →
        IsValid s scale ((from + units) * scale + n * (units * scale)) ((from + units) * scale + n * (units * scale))
        (repeated_from (from * scale) (units * scale) rows n) }
    ensures closed { (s : SetContents) (scale from units : ℕ) (rows : List Row) → NoneIsOpen s from → 1 ≤ units → PeriodsDivide s.tasks units →
        StandsAgain s scale from units rows }
{}

/// The law of what is decided over rows: the test says just whether they stand again a scale's number of units later, and from the unit
/// that is decided, where it is before the horizon, the rows of a valid schedule can be repeated for ever.
pub fn repeat_unit_law()
    ensures decides { (s : SetContents) (scale from : ℕ) (rows : List Row) → IsScale s.tasks scale →
        (stands_again s scale from scale rows ≡ true) ↔ StandsAgain s scale from scale rows }
    ensures again { (s : SetContents) (scale : ℕ) (rows : List Row) → IsScale s.tasks scale →
        IsValid s scale (s.horizon * scale) (s.horizon * scale) rows → repeat_unit s scale rows < s.horizon →
        ComesAgain s scale (repeat_unit s scale rows) rows }
    ensures start { (s : SetContents) (scale : ℕ) (rows : List Row) → CanRepeat s → repeat_unit s scale rows ≡ 0 }
{}
