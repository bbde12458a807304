//! Why a call of a monitor is refused.
ghost use Rattle.std.specs.Prelude.{◌≡◌};
ghost use Rattle.reference.specs.Refusals.{number, from_start, from_decide};

use policies::{DecideRefusal, StartRefusal};

/// A call that is refused alters nothing.
#[derive(Clone, Copy, PartialEq, Eq, Debug)]
pub enum Refusal {
    /// The session number is not enrolled.
    NotEnrolled,
    /// The session was closed.
    Closed,
    /// The object number is past the table.
    UnknownObject,
    /// The clearance does not dominate the start label.
    NotDominated,
    /// There is no free session row.
    NoFreeRow,
    /// There is no free log place.
    NoFreePlace,
    /// The session's marks are out of order.
    OutOfOrder,
}

impl Refusal {
    // A number, since the project lists its refusals by numbers.
    /// The number by which the refusal is known.
    pub fn number(self) -> u8
        ensures { result ≡ number self }
    {
        match self {
            Refusal::NotEnrolled => 1,
            Refusal::Closed => 2,
            Refusal::UnknownObject => 3,
            Refusal::NotDominated => 4,
            Refusal::NoFreeRow => 5,
            Refusal::NoFreePlace => 6,
            Refusal::OutOfOrder => 7,
        }
    }
}

impl From<StartRefusal> for Refusal {
    ghost from_gives = { λ f r. r ≡ from_start f };

    fn from(refusal: StartRefusal) -> Refusal {
        match refusal {
            StartRefusal::NotDominated => Refusal::NotDominated,
        }
    }
}

impl From<DecideRefusal> for Refusal {
    ghost from_gives = { λ f r. r ≡ from_decide f };

    fn from(refusal: DecideRefusal) -> Refusal {
        match refusal {
            DecideRefusal::OutOfOrder => Refusal::OutOfOrder,
        }
    }
}
