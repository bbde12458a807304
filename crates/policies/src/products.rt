//! Two policies at once: each rules its part of a pair, and granted is what both grant.
ghost use Rattle.std.specs.Prelude.{◌≡◌};
ghost use Rattle.policies.specs.Product.{combined, product_model};
ghost use Rattle.policies.specs.ProductMeaning.{product_meaning};

use crate::policies::Policy;
use crate::verdicts::{DecideRefusal, Decision, Kind, StartRefusal, Verdict};
use orders::Pair;
use std::marker::PhantomData;

/// Names the product of two policies; no value of it is made.
pub struct Product<P, Q>(PhantomData<P>, PhantomData<Q>);

// Granted where both are, and else for want of clearance where either is denied for that.
fn combined(first: Verdict, second: Verdict) -> Verdict
    ensures { result ≡ combined first second }
{
    match (first, second) {
        (Verdict::Granted, Verdict::Granted) => Verdict::Granted,
        (Verdict::Clearance, _) | (_, Verdict::Clearance) => Verdict::Clearance,
        _ => Verdict::History,
    }
}

impl<P: Policy, Q: Policy> Policy for Product<P, Q> {
    type Label = Pair<P::Label, Q::Label>;

    type Marks = Pair<P::Marks, Q::Marks>;

    ghost model = { product_model P.Policy.model Q.Policy.model };

    ghost meaning = { product_meaning P.Policy.meaning Q.Policy.meaning };

    // Three tests alike: one function over both parts' tests would have to say where it never asks the second.
    fn may_flow(from: Pair<P::Label, Q::Label>, to: Pair<P::Label, Q::Label>) -> bool {
        P::may_flow(from.first, to.first) && Q::may_flow(from.second, to.second)
    }

    fn read_admits(clearance: Pair<P::Label, Q::Label>, label: Pair<P::Label, Q::Label>) -> bool {
        P::read_admits(clearance.first, label.first)
            && Q::read_admits(clearance.second, label.second)
    }

    fn write_admits(clearance: Pair<P::Label, Q::Label>, label: Pair<P::Label, Q::Label>) -> bool {
        P::write_admits(clearance.first, label.first)
            && Q::write_admits(clearance.second, label.second)
    }

    fn start(
        clearance: Pair<P::Label, Q::Label>,
        label: Pair<P::Label, Q::Label>,
    ) -> Result<Pair<P::Marks, Q::Marks>, StartRefusal> {
        Ok(Pair {
            first: P::start(clearance.first, label.first)?,
            second: Q::start(clearance.second, label.second)?,
        })
    }

    fn decide(
        marks: Pair<P::Marks, Q::Marks>,
        label: Pair<P::Label, Q::Label>,
        kind: Kind,
    ) -> Result<Decision<Pair<P::Marks, Q::Marks>>, DecideRefusal> {
        let first = P::decide(marks.first, label.first, kind)?;
        let second = Q::decide(marks.second, label.second, kind)?;
        let verdict = combined(first.verdict, second.verdict);
        // A part that grants keeps its marks too where the other denies.
        let marks = match verdict {
            Verdict::Granted => Pair {
                first: first.marks,
                second: second.marks,
            },
            Verdict::Clearance | Verdict::History => marks,
        };
        Ok(Decision { verdict, marks })
    }
}
