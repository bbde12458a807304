//! Integrity: information flows down the order. A read is decided as secrecy decides a write, and a write as a read.
ghost use Rattle.rules.specs.SixLabels.{integrity_model, integrity_range, integrity_marks, integrity_begin};
ghost use Rattle.std.specs.Prelude.{refl};
ghost use Rattle.rules.specs.RangeMeaning.{range_meaning};
ghost use Rattle.policies.proofs.ViewMeaning.{reversed_meaning, kept_meaning};

use crate::marks::SixLabels;
use crate::ranges::LabelRange;
use orders::LabelOrder;
use policies::{DecideRefusal, Decision, Kind, Policy, StartRefusal};
use std::marker::PhantomData;

/// Names the policy of integrity over an order; no value of it is made.
pub struct Integrity<O>(PhantomData<O>);

// Beside secrecy and not made of it: the two differ in each call, and a reversed policy that keeps other marks would take
// more types than there are policies.
impl<O: LabelOrder> Policy for Integrity<O> {
    type Label = O;

    type Marks = SixLabels<O>;

    ghost model = { integrity_model O.LabelOrder.order };

    ghost meaning = { kept_meaning (reversed_meaning (range_meaning O.LabelOrder.lattice)) integrity_range integrity_marks integrity_begin (λ m w. refl) (λ m. refl) (λ w. refl) };

    fn may_flow(from: O, to: O) -> bool {
        from.dominates(to)
    }

    fn read_admits(_clearance: O, _label: O) -> bool {
        true
    }

    fn write_admits(clearance: O, label: O) -> bool {
        clearance.dominates(label)
    }

    fn start(clearance: O, label: O) -> Result<SixLabels<O>, StartRefusal> {
        let range = LabelRange::start(clearance, label)?;
        Ok(SixLabels::start(range, range.ceiling, range.floor))
    }

    fn decide(
        marks: SixLabels<O>,
        label: O,
        kind: Kind,
    ) -> Result<Decision<SixLabels<O>>, DecideRefusal> {
        let range = LabelRange {
            clearance: marks.clearance,
            current: marks.current,
            ceiling: marks.in_low,
            floor: marks.out_high,
        };
        let next = range.decide(label, kind.reversed())?;
        Ok(Decision {
            verdict: next.verdict,
            marks: SixLabels {
                clearance: next.marks.clearance,
                current: next.marks.current,
                in_low: next.marks.ceiling,
                out_high: next.marks.floor,
                ..marks
            },
        })
    }
}
