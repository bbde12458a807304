//! Pairs, and the order of pairs of labels.
ghost use Rattle.orders.specs.Pairs.{pair_order};
ghost use Rattle.orders.specs.Products.{paired};

use crate::orders::LabelOrder;

/// Two values side by side, as a label of each of two orders.
#[derive(Clone, Copy, PartialEq, Eq, Debug)]
pub struct Pair<A, B> {
    pub first: A,
    pub second: B,
}

impl<A: Copy, B: Copy> Pair<A, B> {
    // The pair made of two, part by part.
    fn by_part<F: FnOnce(A, A) -> A, G: FnOnce(B, B) -> B>(
        self,
        other: Pair<A, B>,
        first: F,
        second: G,
    ) -> Pair<A, B>
        requires first { F.IsAlwaysCallable first }
        requires second { G.IsAlwaysCallable second }
        ensures first { F.post first self.first other.first result.first }
        ensures second { G.post second self.second other.second result.second }
    {
        Pair {
            first: first(self.first, other.first),
            second: second(self.second, other.second),
        }
    }
}

impl<A: LabelOrder, B: LabelOrder> LabelOrder for Pair<A, B> {
    ghost order = { pair_order A.LabelOrder.order B.LabelOrder.order };

    ghost lattice = { paired A.LabelOrder.lattice B.LabelOrder.lattice };

    fn dominates(self, other: Pair<A, B>) -> bool {
        self.first.dominates(other.first) && self.second.dominates(other.second)
    }

    fn join(self, other: Pair<A, B>) -> Pair<A, B> {
        self.by_part(other, A::join, B::join)
    }

    fn meet(self, other: Pair<A, B>) -> Pair<A, B> {
        self.by_part(other, A::meet, B::meet)
    }

    // Beside `high`, from which it differs in what it names: a function over both would be as long.
    fn low() -> Pair<A, B> {
        Pair {
            first: A::low(),
            second: B::low(),
        }
    }

    fn high() -> Pair<A, B> {
        Pair {
            first: A::high(),
            second: B::high(),
        }
    }

    fn attest(self) {
        self.first.attest();
        self.second.attest();
    }
}
