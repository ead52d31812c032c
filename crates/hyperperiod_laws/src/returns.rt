//! What runs comes again, and so does the schedule.
ghost use Rattle.std.specs.Prelude.{ℕ, ◌≡◌, ◌<◌, ◌≤◌, ◌+◌, ◌*◌, ◌^◌, ◌++◌, true, false, List, map, length};
ghost use Rattle.sched_base.specs.declared.rows.Row.{Row};
ghost use Rattle.sched_base.specs.Sets.{SetContents};
ghost use Rattle.run_tree.specs.Boundaries.{set_boundary};
ghost use Rattle.run_tree.specs.Rounds.{is_event};
ghost use Rattle.run_tree.specs.Runs.{runs};
ghost use Rattle.run_tree.specs.Schedule.{places_below, schedule};
ghost use Rattle.run_tree.specs.Tree.{Tree, IsMember, leaf};
ghost use Rattle.run_tree.specs.TreeOfSet.{is_idle};
ghost use Rattle.repeat_laws.specs.Repeats.{later};
ghost use Rattle.hyperperiod_laws.specs.Hyperperiods.{ComesRound, IsLeftAgain, left_of};

/// The law of the hyperperiod: where no task has an offset and each period divides so many units, the same nodes run at each tick as so
/// many units later, and the ticks after 0 that are events are events again, in whatever reduction tree whose idle leaves stand apart.
/// All windows are to end before those of idle leaves, at unit 2^33. The least such number of units is the scale.
pub fn hyperperiod_law()
    ensures runs { (s : SetContents) (t : Tree) (units : ℕ) → ComesRound s t units → (n x : ℕ) →
        n + 2 * (units * t.scale) < 2 ^ 33 * t.scale → x < length t.nodes →
        runs (set_boundary s.tasks) t x (n + units * t.scale) ≡ runs (set_boundary s.tasks) t x n }
    ensures events { (s : SetContents) (t : Tree) (units : ℕ) → ComesRound s t units → (n : ℕ) → 0 < n →
        n + 2 * (units * t.scale) < 2 ^ 33 * t.scale →
        is_event (set_boundary s.tasks) t (n + units * t.scale) ≡ is_event (set_boundary s.tasks) t n }
{}

/// The law of the places: processors remember their packs, so they needn't come again with what runs. But where at an event all places
/// are as so many units later, the schedule goes on there as it did from that event on, so many units later.
pub fn places_law()
    ensures { (s : SetContents) (t : Tree) (units : ℕ) → ComesRound s t units → (from to : ℕ) → 0 < from → from < to →
        to + 2 * (units * t.scale) ≤ 2 ^ 33 * t.scale → is_event (set_boundary s.tasks) t from ≡ true →
        places_below (set_boundary s.tasks) t (from + units * t.scale) ≡ places_below (set_boundary s.tasks) t from →
        (rows : List Row) → schedule s.tasks t to ≡ schedule s.tasks t from ++ rows →
        schedule s.tasks t (to + units * t.scale) ≡ schedule s.tasks t (from + units * t.scale) ++ map (later (units * t.scale)) rows }
{}

/// The law of the dues: what is left of them decides what runs. Where no task waits any more, and as much is left of each due, but for
/// those of idle leaves, as so many units later, a number that each period divides, the same nodes run from there on as so many units
/// later, the same ticks are events, and as much stays left. Where both ticks are events and the places are the same too, the schedule
/// goes on as it did. All windows are to end before those of idle leaves, at unit 2^33.
pub fn dues_law()
    ensures runs { (s : SetContents) (t : Tree) (units start : ℕ) → IsLeftAgain s t units start → (n x : ℕ) → start ≤ n →
        n + 2 * (units * t.scale) < 2 ^ 33 * t.scale → x < length t.nodes →
        runs (set_boundary s.tasks) t x (n + units * t.scale) ≡ runs (set_boundary s.tasks) t x n }
    ensures events { (s : SetContents) (t : Tree) (units start : ℕ) → IsLeftAgain s t units start → (n : ℕ) → start < n →
        n + 2 * (units * t.scale) < 2 ^ 33 * t.scale →
        is_event (set_boundary s.tasks) t (n + units * t.scale) ≡ is_event (set_boundary s.tasks) t n }
    ensures left { (s : SetContents) (t : Tree) (units start : ℕ) → IsLeftAgain s t units start → (n x : ℕ) → start ≤ n →
        n + 2 * (units * t.scale) < 2 ^ 33 * t.scale → IsMember t x → is_idle (leaf t x) ≡ false →
        left_of s t x (n + units * t.scale) ≡ left_of s t x n }
    ensures schedule { (s : SetContents) (t : Tree) (units start : ℕ) → IsLeftAgain s t units start → (from to : ℕ) → start ≤ from → from < to →
        to + 2 * (units * t.scale) ≤ 2 ^ 33 * t.scale → is_event (set_boundary s.tasks) t from ≡ true →
        is_event (set_boundary s.tasks) t (from + units * t.scale) ≡ true →
        places_below (set_boundary s.tasks) t (from + units * t.scale) ≡ places_below (set_boundary s.tasks) t from →
        (rows : List Row) → schedule s.tasks t to ≡ schedule s.tasks t from ++ rows →
        schedule s.tasks t (to + units * t.scale) ≡ schedule s.tasks t (from + units * t.scale) ++ map (later (units * t.scale)) rows }
{}
