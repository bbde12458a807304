//! What is asked of a policy, and what it answers.
ghost use Rattle.std.specs.Prelude.{◌≡◌};
ghost use Rattle.policies.specs.Kinds.{reversed};

/// How a request would use its object.
#[derive(Clone, Copy, PartialEq, Eq, Debug)]
pub enum Kind {
    Read,
    Write,
    Both,
}

impl Kind {
    /// A write for a read, and a read for a write.
    pub fn reversed(self) -> Kind
        ensures { result ≡ reversed self }
    {
        match self {
            Kind::Read => Kind::Write,
            Kind::Write => Kind::Read,
            Kind::Both => Kind::Both,
        }
    }
}

/// The answer to a request.
#[derive(Clone, Copy, PartialEq, Eq, Debug)]
pub enum Verdict {
    Granted,
    /// Denied: a clearance that the request needs does not admit the object's label.
    Clearance,
    /// Denied: the clearances admit the label, and what the session read or wrote before forbids the request.
    History,
}

// No flag with a value beside it: there are marks after every verdict.
/// A verdict, and the marks that stand after it.
#[derive(Clone, Copy)]
pub struct Decision<M> {
    pub verdict: Verdict,
    pub marks: M,
}

/// Why no session starts.
#[derive(Clone, Copy, PartialEq, Eq, Debug)]
pub enum StartRefusal {
    /// The clearance does not dominate the start label.
    NotDominated,
}

// Apart from `StartRefusal`, so that a signature says which of the two may come.
/// Why a request is not decided.
#[derive(Clone, Copy, PartialEq, Eq, Debug)]
pub enum DecideRefusal {
    /// The marks are out of order.
    OutOfOrder,
}
