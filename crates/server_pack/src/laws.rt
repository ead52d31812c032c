//! What first fit is, in its own words.
ghost use Rattle.std.specs.Prelude.{◌≡◌, ◌≤◌, ◌<◌, ℕ, List, length, slice_index, All, Contains};
ghost use Rattle.std.specs.List.Sorted.{IsStrictlyIncreasing};
ghost use Rattle.sched_base.specs.FirstFit.{packed, homes, load, IsFirstFit};
ghost use Rattle.server_pack.specs.Servers.{items_of};

/// The law of first fit, for items none of which asks for more than the scale. This runs nothing: its clauses are the law.
pub fn first_fit_law()
    // Each item's server is the first that has room beside the items before it.
    ensures is { (scale : ℕ) (rates : List ℕ) → All (λ rate. rate ≤ scale) rates → IsFirstFit scale rates (homes scale rates) }
    // No other choice of servers is so.
    ensures same { (scale : ℕ) (rates a b : List ℕ) → IsFirstFit scale rates a → IsFirstFit scale rates b → a ≡ b }
    // The rate of a server is that of its items together.
    ensures loads { (scale : ℕ) (rates : List ℕ) (b : ℕ) → slice_index (packed scale rates) b ≡ load rates (homes scale rates) (length rates) b }
    // Each item's server is there.
    ensures opened { (scale : ℕ) (rates : List ℕ) (k : ℕ) → k < length rates → slice_index (homes scale rates) k < length (packed scale rates) }
{}

/// The items of a server are those whose home it is, in rising order. This runs nothing: its clauses are the law.
pub fn items_law()
    ensures held { (homes : List ℕ) (k : ℕ) → k < length homes → Contains (items_of homes (slice_index homes k)) k }
    ensures only { (homes : List ℕ) (b k : ℕ) → Contains (items_of homes b) k → (k < length homes) × (slice_index homes k ≡ b) }
    ensures rising { (homes : List ℕ) (b : ℕ) → IsStrictlyIncreasing (items_of homes b) }
{}
