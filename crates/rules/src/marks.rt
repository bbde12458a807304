//! The marks of secrecy and integrity.
ghost use Rattle.std.specs.Prelude.{◌≡◌};
ghost use Rattle.rules.specs.SixLabels.{started};

use crate::ranges::LabelRange;

/// The six labels of a session.
///
/// The clearance stays as it was at the start, and the current label moves with what is granted. Under secrecy in-high
/// is the join of what was read and out-low the meet of what was written; under integrity in-low is the meet of what
/// was read and out-high the join of what was written. The other two of the four stay where they started.
#[derive(Clone, Copy, PartialEq, Eq, Debug)]
pub struct SixLabels<L> {
    pub clearance: L,
    pub current: L,
    pub in_low: L,
    pub in_high: L,
    pub out_low: L,
    pub out_high: L,
}

impl<L: Copy> SixLabels<L> {
    // The labels of a session that starts, by those that its reads move and those that its writes move.
    pub(crate) fn start(range: LabelRange<L>, moved_by_reads: L, moved_by_writes: L) -> SixLabels<L>
        ensures { result ≡ started range moved_by_reads moved_by_writes }
    {
        SixLabels {
            clearance: range.clearance,
            current: range.current,
            in_low: moved_by_reads,
            in_high: moved_by_reads,
            out_low: moved_by_writes,
            out_high: moved_by_writes,
        }
    }
}
