//! What a type of labels has to have.
ghost use Rattle.std.specs.Prelude.{◌≡◌};
ghost use Rattle.orders.specs.Order.{Order, Lattice};

/// Labels that form a lattice under dominance.
pub trait LabelOrder: Copy {
    // Dominance, join, meet, the two ends, and which terms are labels that a program can hold.
    ghost order: { Order Self };

    /// Whether this label dominates the other.
    fn dominates(self, other: Self) -> bool
        ensures { result ≡ order.dominance self other };

    /// The lowest label that dominates both.
    fn join(self, other: Self) -> Self
        ensures { result ≡ order.join self other };

    /// The highest label that both dominate.
    fn meet(self, other: Self) -> Self
        ensures { result ≡ order.meet self other };

    /// LOW: every label dominates it.
    fn low() -> Self
        ensures { result ≡ order.low };

    /// HIGH: it dominates every label.
    fn high() -> Self
        ensures { result ≡ order.high };

    /// Does nothing. It tells a proof over any order that a label which a program holds is proper.
    fn attest(self)
        ensures { order.proper self };

    ghost lattice: { Lattice order };
}
