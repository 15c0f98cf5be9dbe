//! Laws on walks that end as is asked, over any kind of cells. None computes anything.
ghost use Rattle.std.specs.Prelude.{◌≡◌, ℕ, ◌≤◌, ◌-◌, ◌↔◌, Option, Some, None};
ghost use Rattle.label_core.specs.Walks.{Network, IsEarliestExit};
ghost use Rattle.label_core.specs.BackwardWalks.{Finish, Leads, IsLatestEntry};
ghost use Rattle.label_core.specs.BackwardTables.{IsAbove, HasAsLate, IsClosedBack};
ghost use Rattle.label_core.specs.Mirror.{mirror_network, mirror_starts, IsUpTo};

/// The latest entries are the earliest exits in the mirror, which lies at a second that no time passes.
pub fn the_mirror_turns_latest_entries_round<C>()
    ensures there { (net : Network C) (finishes : C → Option Finish) (k : ℕ) → IsUpTo k net finishes → (c : C) (t : ℕ)
        → IsLatestEntry net finishes c t → IsEarliestExit (mirror_network k net) (mirror_starts k finishes) c (k - t) }
    ensures back { (net : Network C) (finishes : C → Option Finish) (k : ℕ) → IsUpTo k net finishes → (c : C) (t : ℕ)
        → IsEarliestExit (mirror_network k net) (mirror_starts k finishes) c t → IsLatestEntry net finishes c (k - t) }
{}

/// A closed backward table has a row at least as late for each walk that begins above the bound.
pub fn a_closed_backward_table_leaves_no_walk_out<C>()
    ensures { (net : Network C) (finishes : C → Option Finish) (k : ℕ) → IsUpTo k net finishes → (row : C → Option ℕ)
        → ((c : C) (v : ℕ) → row c ≡ Some v → v ≤ k) → (bound : Option ℕ) → ((c : C) → 1 ≤ net.seconds c)
        → IsClosedBack net finishes bound (λ c v. row c ≡ Some v) → (c : C) (t : ℕ) → Leads net finishes c t → IsAbove bound t
        → HasAsLate (λ c v. row c ≡ Some v) c t }
{}
