//! Whether two trees are the same.

ghost use Rattle.std.specs.Prelude.{◌≡◌, ◌↔◌, true};
ghost use Rattle.route_tree.specs.Equality.{is_same_tree};
ghost use Rattle.route_tree.specs.EqualityLaws.{same_tree_symmetric, same_tree_equivalence};

use crate::tree::{Row, Tree};

#[tactic(auto, unfolding(crate::specs::Equality::is_same_tree))]
fn are_same_rows(a: &[Row], b: &[Row]) -> bool
    ensures { result ≡ is_same_tree a.now b.now }
{
    a == b
}

impl PartialEq for Tree {
    ghost eq = { is_same_tree };

    ghost laws = { same_tree_symmetric };

    /// Whether the two have the same rows, in the same order.
    #[tactic(auto, using(crate::specs::EqualityLaws::same_tree))]
    fn eq(&self, other: &Tree) -> bool
        ensures test { result ≡ is_same_tree self.now other.now }
        ensures same { (result ≡ true) ↔ (self.now ≡ other.now) }
    {
        are_same_rows(&self.rows, &other.rows)
    }
}

impl Eq for Tree {
    ghost laws = { same_tree_equivalence };
}
