//! Laws of the market of cuts, over every lawful list and every legal journal.
//!
//! Each law is the contract of a function with an empty body. A crate above calls it, or cites the lemmas of `proofs/`,
//! and has the clauses as facts. The definitions are those of `pm_market`. Two claims rest on these laws. Each device
//! takes its power at the price of a clearing that contains its bid, and no node goes back to an older one.
#![tactic(auto)]

ghost use Rattle.std.specs.Prelude.{◌≡◌, ℕ, ◌+◌, ◌-◌, ◌<◌, ◌≤◌, ◌↔◌, ℤ, true, false, List, ◌∷◌, ◌++◌, [], length};
ghost use Rattle.pm_market.specs.Lists.{Lists, parent, phases, changes, IsNode, IsLeaf, IsInner, IsConcentrator, IsLeafOf, is_member, Lawful};
ghost use Rattle.pm_market.specs.State.{State, start, is_same_on, cut_at, newest_number_of, knowledge, number, last_index, clearings, cleared_cut, addresses};
ghost use Rattle.pm_market.specs.Moves.{NodeLegal, Idle, Legal, step, after, LegalJournal, IsComplete};
ghost use Rattle.pm_market.specs.Sound.{Sound};
ghost use Rattle.pm_market.specs.Bound.{bound, change_total};
ghost use Rattle.pm_market.specs.Held.{holds_price};
ghost use Rattle.pm_market.specs.Offers.{sum_children, sum_on};
ghost use Rattle.pm_market.specs.Legality.{are_legal, first_illegal, is_idle, is_legal};
ghost use Rattle.pm_market.specs.declared.moves.Move.{Move};
ghost use Rattle.pm_laws.specs.Potential.{potential};
ghost use Rattle.pm_laws.specs.Rest.{Rests};

use pm_market::Move;

mod moves;

pub use moves::{clearings_fall_due, one_part_is_learnt, what_is_known_is_added};

/// The start is sound, each legal move keeps a state sound, and so every state after a legal journal is sound.
pub fn states_are_sound()
    ensures at_start { (lists : Lists) → Lawful lists → Sound lists start }
    ensures each_move { (lists : Lists) (s : State) (m : Move) → Lawful lists → Sound lists s →
        Legal lists s m → Sound lists (step lists s m) }
    ensures each_journal { (lists : Lists) (journal : List Move) → Lawful lists →
        LegalJournal lists journal → Sound lists (after lists journal) }
{}

/// Of two passes to one node the later names the greater index, and its cut is nowhere lower. So over all its
/// memberships no device goes back to older bids of anyone.
pub fn no_device_goes_back()
    ensures { (lists : Lists) (front mid rest : List Move) (x i j : ℕ) →
        let journal = front ++ Move.Pass x i ∷ (mid ++ Move.Pass x j ∷ rest) in
        Lawful lists → LegalJournal lists journal →
        (i < j) × ((d : ℕ) → IsLeaf lists d → cleared_cut (after lists journal) i d
        ≤ cleared_cut (after lists journal) j d) }
{}

/// Rest is current. At rest the last cleared cut is that of all changes made (all zeros if no cut was cleared). Each device
/// that is a member was passed that clearing last, at its newest number. Nothing of a concentrator is unanswered. A state may
/// be at rest and not idle: a clearing before the last one may still be legal to pass.
pub fn rest_is_current()
    ensures idle { (lists : Lists) (s : State) → Idle lists s → Rests lists s }
    ensures counts { (lists : Lists) (s : State) → Lawful lists → Sound lists s → Rests lists s →
        (d : ℕ) → IsLeaf lists d → cleared_cut s (clearings s) d ≡ s.counts d }
    ensures passed { (lists : Lists) (s : State) → Lawful lists → Sound lists s → Rests lists s →
        (d : ℕ) → IsLeaf lists d → is_member lists d (s.counts d) ≡ true →
        (1 ≤ clearings s) × (last_index s d ≡ clearings s) }
    ensures windows { (lists : Lists) (s : State) → Lawful lists → Sound lists s → Rests lists s →
        (c : ℕ) → IsConcentrator lists c → newest_number_of lists s c - number lists s c
        (cleared_cut s (last_index s c)) ≡ 0 }
{}

/// Quiet is current. If a sound state is idle, the last cleared cut is that of all changes made (all zeros if no cut was
/// cleared). Each device that is a member was passed that clearing last, at its newest number. Nothing of a concentrator
/// is unanswered, so no window is full. Every state after a legal journal is sound.
#[tactic(auto, using(crate::proofs::Quiet::quiet_counts, crate::proofs::Quiet::quiet_passed, crate::proofs::Quiet::quiet_window))]
pub fn quiet_is_current()
    ensures counts { (lists : Lists) (s : State) → Lawful lists → Sound lists s → Idle lists s →
        (d : ℕ) → IsLeaf lists d → cleared_cut s (clearings s) d ≡ s.counts d }
    ensures passed { (lists : Lists) (s : State) → Lawful lists → Sound lists s → Idle lists s →
        (d : ℕ) → IsLeaf lists d → is_member lists d (s.counts d) ≡ true →
        (1 ≤ clearings s) × (last_index s d ≡ clearings s) }
    ensures windows { (lists : Lists) (s : State) → Lawful lists → Sound lists s → Idle lists s →
        (c : ℕ) → IsConcentrator lists c → newest_number_of lists s c - number lists s c
        (cleared_cut s (last_index s c)) ≡ 0 }
{}

/// A complete journal ends idle, with every change made.
pub fn complete_journals_end_quiet()
    ensures idle { (lists : Lists) (journal : List Move) → Lawful lists →
        LegalJournal lists journal → IsComplete lists journal →
        Idle lists (after lists journal) }
    ensures made { (lists : Lists) (journal : List Move) → Lawful lists →
        LegalJournal lists journal → IsComplete lists journal →
        (d : ℕ) → IsLeaf lists d → (after lists journal).counts d ≡ changes lists d }
{}

/// A legal journal has at most `bound` moves. The potential `counted` is, over all nodes, the newest number, the number
/// learnt and the clearings passed, with the clearings and the closed phases. Each legal move raises it, and no move
/// lowers a part. `Change` and `Publish` raise a newest number by one, `Learn` the number learnt, `Pass` the clearings
/// passed, `Clear` the clearings, and `Close` the closed phases. In a sound state it is at most the bound. The newest
/// number of a node is at most the changes of the devices at or below it, since its cuts rise strictly. Each device is at
/// or below itself and at most 6 concentrators. So newest numbers add up to at most 7 times the changes, and numbers
/// learnt to no more. There are at most as many clearings as changes, each passed to a node at most once.
#[tactic(auto, using(crate::proofs::Bound::bound_laws))]
pub fn journals_are_bounded()
    ensures rises { (lists : Lists) (s : State) (m : Move) → Lawful lists → Legal lists s m →
        potential lists s < potential lists (step lists s m) }
    ensures within { (lists : Lists) (s : State) → Lawful lists → Sound lists s →
        potential lists s ≤ bound lists }
    ensures newest { (lists : Lists) (s : State) (x : ℕ) → Lawful lists → Sound lists s →
        IsNode lists x → newest_number_of lists s x ≤ change_total lists }
    ensures moves { (lists : Lists) (journal : List Move) → Lawful lists →
        LegalJournal lists journal → length journal ≤ bound lists }
{}

/// Tests decide legality and idleness, and if a state is not idle, some node's move is legal.
#[tactic(auto, using(crate::proofs::Legality::legality_tests))]
pub fn legality_is_decided()
    ensures legal { (lists : Lists) (s : State) (m : Move) → Lawful lists → Sound lists s →
        (is_legal lists s m ≡ true) ↔ Legal lists s m }
    ensures idle { (lists : Lists) (s : State) → Sound lists s →
        (is_idle lists s ≡ true) ↔ Idle lists s }
    ensures journal { (lists : Lists) (journal : List Move) → Lawful lists →
        (are_legal lists start journal ≡ true) ↔ LegalJournal lists journal }
    ensures first { (lists : Lists) (journal : List Move) → Lawful lists →
        (first_illegal lists start journal ≡ length journal)
        ↔ LegalJournal lists journal }
    // A place is the first illegal one exactly where the moves before it are a legal journal, and its own is not legal there.
    ensures illegal { (lists : Lists) (before : List Move) (m : Move) (rest : List Move) →
        Lawful lists →
        (first_illegal lists start (before ++ m ∷ rest) ≡ length before)
        ↔ (LegalJournal lists before × (Legal lists (after lists before) m → ⊥)) }
    ensures pushed { (lists : Lists) (journal : List Move) (m : Move) →
        are_legal lists start journal ≡ true →
        Legal lists (after lists journal) m → are_legal lists start (journal ++ m ∷ []) ≡ true }
    ensures busy { (lists : Lists) (s : State) → is_idle lists s ≡ false →
        (m : Move) × NodeLegal lists s m }
{}

/// While a phase is open some move is legal.
#[tactic(auto, using(crate::proofs::Progress::progress))]
pub fn some_move_is_legal()
    ensures { (lists : Lists) (s : State) → Lawful lists → Sound lists s → s.closed < phases lists →
        (m : Move) × Legal lists s m }
{}

/// Why numbers are enough: what a core that keeps numbers alone needs of the cuts.
#[tactic(auto, using(crate::proofs::Numbers::number_laws))]
pub fn numbers_stand_for_cuts()
    // What a node knows contains of each child the number that was learnt of it.
    ensures known { (lists : Lists) (s : State) → Lawful lists → Sound lists s → (x : ℕ) →
        IsNode lists x →
        number lists s x (knowledge lists s (parent lists x)) ≡ s.learnt x }
    // It is what the node published or cleared last exactly where that contains of each child the number learnt.
    ensures heads { (lists : Lists) (s : State) → Lawful lists → Sound lists s → (c : ℕ) →
        IsInner lists c →
        (is_same_on lists c (knowledge lists s c) (cut_at (s.published c) (length (s.published c)))
        ≡ true)
        ↔ ((x : ℕ) → IsNode lists x → parent lists x ≡ c →
        number lists s x (cut_at (s.published c) (length (s.published c))) ≡ s.learnt x) }
    // A clearing contains of a child of c the number that c published under the number that the clearing contains of c.
    ensures down { (lists : Lists) (s : State) → Lawful lists → Sound lists s → (x j : ℕ) →
        IsNode lists x →
        IsNode lists (parent lists x) → j ≤ clearings s →
        number lists s x (cleared_cut s j) ≡ number lists s x
        (cut_at (s.published (parent lists x))
        (number lists s (parent lists x) (cleared_cut s j))) }
    // Of two clearings the later contains no smaller number of a node.
    ensures rises { (lists : Lists) (s : State) → Lawful lists → Sound lists s → (x i j : ℕ) →
        IsNode lists x → i ≤ j → j ≤ clearings s →
        number lists s x (cleared_cut s i) ≤ number lists s x (cleared_cut s j) }
    // It addresses a concentrator exactly where it contains a number of it above 0.
    ensures addressed { (lists : Lists) (s : State) → Lawful lists → Sound lists s → (c j : ℕ) →
        IsConcentrator lists c → j ≤ clearings s →
        (addresses lists s j c ≡ true) ↔ (1 ≤ number lists s c (cleared_cut s j)) }
{}

/// A device that holds a price is a member at the number that the price names; in an idle state every member holds one.
#[tactic(auto, using(crate::proofs::Held::quiet_holds, crate::proofs::Held::holder_included))]
pub fn holders_are_members()
    ensures included { (lists : Lists) (s : State) → Sound lists s → (d : ℕ) → IsLeaf lists d →
        holds_price lists s d ≡ true →
        is_member lists d (cleared_cut s (last_index s d) d) ≡ true }
    ensures quiet { (lists : Lists) (s : State) → Lawful lists → Sound lists s → Idle lists s →
        (d : ℕ) → IsLeaf lists d →
        is_member lists d (s.counts d) ≡ true → holds_price lists s d ≡ true }
{}

/// The sum of whole numbers over the leaves of a node is that of its children's sums, and depends on the leaves alone.
#[tactic(auto, using(crate::proofs::Offers::sum_on_leaf, crate::proofs::Offers::sum_on_inner, crate::proofs::Offers::sum_on_same))]
pub fn sums_go_up()
    ensures leaf { (lists : Lists) (x : ℕ) (f : ℕ → ℤ) → Lawful lists → IsLeaf lists x →
        sum_on lists x f ≡ f x }
    ensures inner { (lists : Lists) (y : ℕ) (f : ℕ → ℤ) → Lawful lists → IsInner lists y →
        sum_on lists y f ≡ sum_children lists y (λ x. sum_on lists x f) }
    ensures leaves_alone { (lists : Lists) (x : ℕ) (f g : ℕ → ℤ) →
        ((d : ℕ) → IsLeafOf lists x d → f d ≡ g d) →
        sum_on lists x f ≡ sum_on lists x g }
{}
