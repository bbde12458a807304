//! The lowest label that dominates each of a list.
ghost use Rattle.std.specs.Prelude.{◌≡◌};
ghost use Rattle.orders.specs.Bounds.{gathered, LowestBound};

use crate::orders::LabelOrder;

/// The lowest label that dominates each of the list: LOW where the list is empty.
pub fn gather<L: LabelOrder>(labels: &[L]) -> L
    ensures joins { result ≡ gathered L.order labels.now }
    ensures lowest { LowestBound L.order labels.now result }
{
    labels
        .iter()
        .fold(L::low(), |bound, label| bound.join(*label))
}
