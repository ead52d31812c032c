//! The law of spending, without code: spending keeps what is left of each due.

ghost use Rattle.std.specs.Prelude.{ℕ, List, Bool, false, ◌≡◌, ◌<◌, ◌≤◌, ◌+◌, ◌*◌, slice_index};
ghost use Rattle.run_tree.specs.Plans.{PlanContents, IsPlan, boundary_of};
ghost use Rattle.run_tree.specs.Tree.{IsMember};
ghost use Rattle.server_budget.specs.Spending.{SaysLeft, SaysMembersRun, AreSpent, left_of};

/// The law of spending. At tick n let the remainders be what is left of the dues, and let `running` say who runs at each tick
/// from n up to n + ticks, the end excluded. Then spending the ticks leaves what is left at n + ticks, at each leaf and dual
/// that has no boundary above n up to n + ticks, the end included.
pub fn spend_law()
    ensures { (p : PlanContents) → IsPlan p → (n ticks : ℕ) (running : List Bool) (before after : List ℕ) → SaysLeft p n before →
        ((s : ℕ) → n ≤ s → s < n + ticks → SaysMembersRun p s running) → AreSpent p running ticks before after → (x : ℕ) → IsMember p.tree x →
        ((u : ℕ) → n < u * p.tree.scale → u * p.tree.scale ≤ n + ticks → boundary_of p x u ≡ false) →
        slice_index after x ≡ left_of p (n + ticks) x }
{}
