//! Laws of what each move adds to the cuts: what is known, what is learnt, and which clearings fall due.

ghost use Rattle.std.specs.Prelude.{◌≡◌, ◌≢◌, ℕ, ◌+◌, ◌≤◌, ◌↔◌, ◌⊎◌, true, length};
ghost use Rattle.pm_market.specs.Lists.{Lists, parent, IsNode, IsInner, IsConcentrator, IsLeafOf, Lawful};
ghost use Rattle.pm_market.specs.State.{State, SameOn, DifferOn, cut_at, part, knowledge, clearings, addresses, addresses_of};
ghost use Rattle.pm_market.specs.Moves.{Legal, step};
ghost use Rattle.pm_market.specs.Sound.{Sound};
ghost use Rattle.pm_laws.specs.Added.{HasAdded};
ghost use Rattle.pm_laws.specs.Due.{is_due};

use pm_market::Move;

/// A publishing and a clearing add what the node knows as one cut more, and leave all older ones.
pub fn what_is_known_is_added()
    ensures published { (lists : Lists) (s : State) (c n : ℕ) → Lawful lists → Sound lists s →
        Legal lists s (Move.Publish c n) →
        HasAdded lists s (step lists s (Move.Publish c n)) c }
    ensures cleared { (lists : Lists) (s : State) (j : ℕ) → Lawful lists → Sound lists s →
        Legal lists s (Move.Clear j) →
        HasAdded lists s (step lists s (Move.Clear j)) 0 }
{}

/// A learning changes what the parent knows of that child's devices, and nothing else that anybody knows. The parent
/// then knows something other than it published or cleared last.
#[tactic(auto, using(crate::proofs::MoveLaws::learning_laws))]
pub fn one_part_is_learnt()
    ensures here { (lists : Lists) (s : State) (x n d : ℕ) → Lawful lists → IsNode lists x →
        IsLeafOf lists x d →
        knowledge lists (step lists s (Move.Learn x n)) (parent lists x) d ≡ part lists s x n d }
    ensures beside { (lists : Lists) (s : State) (x z n d : ℕ) → Lawful lists → IsNode lists z →
        z ≢ x → IsLeafOf lists z d →
        knowledge lists (step lists s (Move.Learn x n)) (parent lists z) d
        ≡ knowledge lists s (parent lists z) d }
    ensures elsewhere { (lists : Lists) (s : State) (x n y : ℕ) → Lawful lists → IsInner lists y →
        parent lists x ≢ y →
        SameOn lists y (knowledge lists s y) (knowledge lists (step lists s (Move.Learn x n)) y) }
    ensures differs { (lists : Lists) (s : State) (x n : ℕ) → Lawful lists → Sound lists s →
        Legal lists s (Move.Learn x n) →
        DifferOn lists (parent lists x)
        (knowledge lists (step lists s (Move.Learn x n)) (parent lists x))
        (cut_at (s.published (parent lists x)) (length (s.published (parent lists x)))) }
{}

/// Which clearings are due to a node, after each move that changes it. A clearing falls due to the auctioneer's children
/// that it addresses. A pass falls due to the children of the node that it addresses. A publishing changes nothing here.
#[tactic(auto, using(crate::proofs::MoveLaws::due_within, crate::proofs::MoveLaws::due_passed))]
pub fn clearings_fall_due()
    ensures within { (lists : Lists) (s : State) (x j : ℕ) → Sound lists s →
        is_due lists s x j ≡ true → (1 ≤ j) × (j ≤ clearings s) }
    ensures published { (lists : Lists) (s : State) (c n x j : ℕ) → IsConcentrator lists c →
        is_due lists (step lists s (Move.Publish c n)) x j ≡ is_due lists s x j }
    ensures cleared { (lists : Lists) (s : State) (k x j : ℕ) → Lawful lists → Sound lists s →
        Legal lists s (Move.Clear k) →
        (is_due lists (step lists s (Move.Clear k)) x j ≡ true)
        ↔ ((is_due lists s x j ≡ true)
        ⊎ ((parent lists x ≡ 0) × (j ≡ clearings s + 1)
        × (addresses_of lists (knowledge lists s 0) x ≡ true))) }
    ensures passed { (lists : Lists) (s : State) (y i x j : ℕ) →
        (is_due lists (step lists s (Move.Pass y i)) x j ≡ true)
        ↔ ((is_due lists s x j ≡ true)
        ⊎ ((parent lists x ≡ y) × (j ≡ i) × (addresses lists s j x ≡ true))) }
{}
