//! The law that a child and its place among its parent's children name each other.

ghost use Rattle.std.specs.Prelude.{◌≡◌, ℕ, ◌≤◌, length, slice_get, List, Some};
ghost use Rattle.pm_tree.specs.Entries.{Entry, parent_of, children_of, place_of};

/// A law: a place and the child at it tell each other. Among the children of its parent each node is at its own
/// place. What is at a place among the children of a node has that place and that parent.
#[tactic(auto, using(crate::proofs::Places::child_at_place, crate::proofs::Places::parent_of_child, crate::proofs::Places::place_of_child))]
pub fn places_tell_the_children()
    ensures child { (entries : List Entry) (node : ℕ) → 1 ≤ node → node ≤ length entries →
        slice_get (children_of entries (parent_of entries node)) (place_of entries node)
        ≡ Some node }
    ensures parent { (entries : List Entry) (node k child : ℕ) →
        slice_get (children_of entries node) k ≡ Some child → parent_of entries child ≡ node }
    ensures place { (entries : List Entry) (node k child : ℕ) →
        slice_get (children_of entries node) k ≡ Some child → place_of entries child ≡ k }
{}
