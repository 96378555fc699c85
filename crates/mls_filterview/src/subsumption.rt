//! Subsumption: which tuples say all that others say (Jajodia and Sandhu 1991).
ghost use Rattle.std.specs.Prelude.{◌≡◌, ◌↔◌, IsTrue};
ghost use Rattle.mls_filterview.specs.Subsumption.{covers, all_cover, Subsumes};
ghost use Rattle.mls_filterview.specs.Filtering.{subsumes_tuple};

use crate::entity::is_one_entity;
use mls_scheme::{Element, Tuple};

/// Whether the first tuple says all that the second one says.
pub fn subsumes(left: &Tuple, right: &Tuple) -> bool
    ensures { IsTrue result ↔ Subsumes left.now right.now }
{
    says_all(left, right)
}

/// Whether the first tuple subsumes the second one.
fn says_all(left: &Tuple, right: &Tuple) -> bool
    ensures { result ≡ subsumes_tuple left.now right.now }
{
    is_one_entity(left, right) && all_cover(&left.elements, &right.elements)
}

/// Whether each element of the first list is that of the second one, or has a value where that has none.
#[tactic(auto, using(crate::proofs::SubsumptionSteps::uneven))]
pub(crate) fn all_cover(left: &[Element], right: &[Element]) -> bool
    ensures { result ≡ all_cover left.now right.now }
{
    if left.len() != right.len() {
        return false;
    }
    for (i, element) in left.iter().enumerate() {
        if !covers(element, &right[i]) {
            return false;
        }
    }
    true
}

fn covers(left: &Element, right: &Element) -> bool
    ensures { result ≡ covers left.now right.now }
{
    if left.same(right) {
        return true;
    }
    !left.is_null() && right.is_null()
}
