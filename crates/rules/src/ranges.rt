//! The rules that secrecy and integrity share, as secrecy reads them.
ghost use Rattle.std.specs.Prelude.{◌≡◌};
ghost use Rattle.rules.specs.Range.{ordered, permits, cleared, moved, range_start, range_decide};

use orders::LabelOrder;
use policies::{DecideRefusal, Decision, Kind, StartRefusal, Verdict};

/// The labels between which a session moves: it stands at `current`, under its clearance, between the floor, which
/// its reads raised, and the ceiling, which its writes lowered.
#[derive(Clone, Copy)]
pub struct LabelRange<L> {
    pub clearance: L,
    pub current: L,
    pub ceiling: L,
    pub floor: L,
}

impl<L: LabelOrder> LabelRange<L> {
    pub fn start(clearance: L, label: L) -> Result<LabelRange<L>, StartRefusal>
        ensures { result ≡ range_start L.order clearance label }
    {
        if !clearance.dominates(label) {
            return Err(StartRefusal::NotDominated);
        }
        Ok(LabelRange {
            clearance,
            current: label,
            ceiling: L::high(),
            floor: L::low(),
        })
    }

    fn in_order(self) -> bool
        ensures { result ≡ ordered L.order self }
    {
        self.clearance.dominates(self.current)
            && self.ceiling.dominates(self.current)
            && self.current.dominates(self.floor)
    }

    fn permits(self, label: L, kind: Kind) -> bool
        ensures { result ≡ permits L.order self label kind }
    {
        let within = self.clearance.dominates(label) && self.ceiling.dominates(label);
        match kind {
            Kind::Read => self.current.dominates(label) || within,
            Kind::Write => label.dominates(self.current) || label.dominates(self.floor),
            Kind::Both => {
                // Labels that dominate each other are one label.
                let at_current = self.current.dominates(label) && label.dominates(self.current);
                at_current || within && label.dominates(self.floor)
            }
        }
    }

    fn cleared(self, label: L, kind: Kind) -> bool
        ensures { result ≡ cleared L.order self label kind }
    {
        match kind {
            Kind::Read | Kind::Both => self.clearance.dominates(label),
            Kind::Write => true,
        }
    }

    // The floor after a read: it rises also where the current label stays. Beside `lowered`, a line that differs in both names.
    fn raised(self, label: L) -> L
        ensures { result ≡ L.order.join self.floor label }
    {
        self.floor.join(label)
    }

    // The ceiling after a write.
    fn lowered(self, label: L) -> L
        ensures { result ≡ L.order.meet self.ceiling label }
    {
        self.ceiling.meet(label)
    }

    fn moved(self, label: L, kind: Kind) -> LabelRange<L>
        ensures { result ≡ moved L.order self label kind }
    {
        match kind {
            Kind::Read => LabelRange {
                current: self.current.join(label),
                floor: self.raised(label),
                ..self
            },
            Kind::Write => LabelRange {
                current: self.current.meet(label),
                ceiling: self.lowered(label),
                ..self
            },
            Kind::Both => LabelRange {
                current: label,
                ceiling: self.lowered(label),
                floor: self.raised(label),
                ..self
            },
        }
    }

    pub fn decide(self, label: L, kind: Kind) -> Result<Decision<LabelRange<L>>, DecideRefusal>
        ensures { result ≡ range_decide L.order self label kind }
    {
        if !self.in_order() {
            return Err(DecideRefusal::OutOfOrder);
        }
        if self.permits(label, kind) {
            return Ok(Decision {
                verdict: Verdict::Granted,
                marks: self.moved(label, kind),
            });
        }
        let verdict = if self.cleared(label, kind) {
            Verdict::History
        } else {
            Verdict::Clearance
        };
        Ok(Decision {
            verdict,
            marks: self,
        })
    }
}
