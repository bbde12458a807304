//! Secrecy: information flows up the order.
ghost use Rattle.rules.specs.SixLabels.{secrecy_model, secrecy_range, secrecy_marks, secrecy_begin};
ghost use Rattle.std.specs.Prelude.{refl};
ghost use Rattle.rules.specs.RangeMeaning.{range_meaning};
ghost use Rattle.policies.proofs.ViewMeaning.{kept_meaning};

use crate::marks::SixLabels;
use crate::ranges::LabelRange;
use orders::LabelOrder;
use policies::{DecideRefusal, Decision, Kind, Policy, StartRefusal};
use std::marker::PhantomData;

/// Names the policy of secrecy over an order; no value of it is made.
pub struct Secrecy<O>(PhantomData<O>);

impl<O: LabelOrder> Policy for Secrecy<O> {
    type Label = O;

    type Marks = SixLabels<O>;

    ghost model = { secrecy_model O.LabelOrder.order };

    ghost meaning = { kept_meaning (range_meaning O.LabelOrder.lattice) secrecy_range secrecy_marks secrecy_begin (λ m w. refl) (λ m. refl) (λ w. refl) };

    fn may_flow(from: O, to: O) -> bool {
        to.dominates(from)
    }

    fn read_admits(clearance: O, label: O) -> bool {
        clearance.dominates(label)
    }

    fn write_admits(_clearance: O, _label: O) -> bool {
        true
    }

    fn start(clearance: O, label: O) -> Result<SixLabels<O>, StartRefusal> {
        let range = LabelRange::start(clearance, label)?;
        Ok(SixLabels::start(range, range.floor, range.ceiling))
    }

    fn decide(
        marks: SixLabels<O>,
        label: O,
        kind: Kind,
    ) -> Result<Decision<SixLabels<O>>, DecideRefusal> {
        let range = LabelRange {
            clearance: marks.clearance,
            current: marks.current,
            ceiling: marks.out_low,
            floor: marks.in_high,
        };
        let next = range.decide(label, kind)?;
        Ok(Decision {
            verdict: next.verdict,
            marks: SixLabels {
                clearance: next.marks.clearance,
                current: next.marks.current,
                in_high: next.marks.floor,
                out_low: next.marks.ceiling,
                ..marks
            },
        })
    }
}
