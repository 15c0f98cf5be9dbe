//! Laws on walks that begin as is asked, over any kind of cells. None computes anything.
ghost use Rattle.std.specs.Prelude.{◌≡◌, ℕ, ◌≤◌, ◌<◌, ◌↔◌, List, Option, Some, None, reverse};
ghost use Rattle.label_core.specs.Walks.{Network, Start, Step, IsWalk, EndsAt, Reaches, IsEarliestExit};
ghost use Rattle.label_core.specs.Tables.{IsBelow, IsClosed, IsAttained};
ghost use Rattle.label_core.specs.Picked.{IsPicked};

/// A closed table that has no row at a cell shows that no walk ends there below the bound, or none at all.
pub fn a_closed_table_leaves_no_walk_out<C>()
    ensures sooner { (net : Network C) (starts : C → Option Start) (row : C → Option ℕ) (bound : ℕ) → ((c : C) → 1 ≤ net.seconds c)
        → IsClosed net starts (Some bound) (λ c v. row c ≡ Some v) → (c : C) (t : ℕ) → row c ≡ None → Reaches net starts c t → bound ≤ t }
    ensures at_all { (net : Network C) (starts : C → Option Start) (row : C → Option ℕ) → ((c : C) → 1 ≤ net.seconds c)
        → IsClosed net starts None (λ c v. row c ≡ Some v) → (c : C) (t : ℕ) → row c ≡ None → Reaches net starts c t → ⊥ }
{}

/// The rows below the bound of a table that is closed, and whose values are ends of walks, are the earliest exits.
pub fn attained_and_closed_is_exact<C>()
    ensures { (net : Network C) (starts : C → Option Start) (row : C → Option ℕ) (bound : Option ℕ) → ((c : C) → 1 ≤ net.seconds c)
        → IsClosed net starts bound (λ c v. row c ≡ Some v) → IsAttained net starts (λ c v. row c ≡ Some v)
        → (c : C) (v : ℕ) → IsBelow bound v → (row c ≡ Some v) ↔ IsEarliestExit net starts c v }
{}

/// The steps that are picked back from a cell's value, turned round, are a walk that ends there.
pub fn picked_steps_are_a_walk<C>()
    ensures { (net : Network C) (starts : C → Option Start) (order : C → ℕ) (row : C → Option ℕ) (c : C) (v t : ℕ) (steps : List (Step C))
        → IsPicked net starts (λ x y. order x < order y) (λ x u. row x ≡ Some u) c v t steps → v ≤ t → t ≤ net.last c
        → IsWalk net starts (reverse steps) × EndsAt (reverse steps) c t }
{}
