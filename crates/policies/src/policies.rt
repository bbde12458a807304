//! What a policy has to have.
ghost use Rattle.std.specs.Prelude.{◌≡◌};
ghost use Rattle.policies.specs.Model.{Model, Meaning};

use crate::verdicts::{DecideRefusal, Decision, Kind, StartRefusal};
use orders::LabelOrder;

/// Decides what a session may read and write, by its marks and by the labels of objects.
pub trait Policy {
    /// The labels of objects and clearances, which name their order.
    type Label: LabelOrder;

    /// What a session keeps between its requests.
    type Marks: Copy;

    // The policy's relations, what its marks mean, and how it starts and decides.
    ghost model: { Model Self.Label Self.Marks };

    /// Whether information may flow from a label to another.
    fn may_flow(from: Self::Label, to: Self::Label) -> bool
        ensures { result ≡ model.flow from to };

    /// Whether the read clearance admits the label.
    fn read_admits(clearance: Self::Label, label: Self::Label) -> bool
        ensures { result ≡ model.read_admits clearance label };

    /// Whether the write clearance admits the label.
    fn write_admits(clearance: Self::Label, label: Self::Label) -> bool
        ensures { result ≡ model.write_admits clearance label };

    // Two labels side by side here, a label and a kind below: the project's calls name each on its own.
    /// The marks of a session of this clearance that starts at the label.
    fn start(clearance: Self::Label, label: Self::Label) -> Result<Self::Marks, StartRefusal>
        ensures { result ≡ model.start clearance label };

    /// Whether a session with these marks may use an object of the label in this way, and its marks from then on.
    fn decide(
        marks: Self::Marks,
        label: Self::Label,
        kind: Kind,
    ) -> Result<Decision<Self::Marks>, DecideRefusal>
        ensures { result ≡ model.decide marks label kind };

    ghost meaning: { Meaning Self.Label.LabelOrder.order model };
}
