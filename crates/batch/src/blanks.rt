//! What labelrun's session rows and log places hold before a monitor is made over them.
ghost use Rattle.std.specs.Prelude.{◌≡◌};
ghost use Rattle.batch.specs.Batch.{blank_row, blank_rows, blank_places};

use labels::GradeLabel;
use monitor::SessionRow;
use orders::LabelOrder;
use policies::{Kind, Verdict};
use reference::{Entry, SessionState};
use rules::SixLabels;

const SESSION_PLACES: usize = 64;

const LOG_PLACES: usize = 1024;

const BLANK_ENTRY: Entry = Entry {
    session: 0,
    object: 0,
    kind: Kind::Read,
    verdict: Verdict::History,
};

// The label six times, as in the tests' rows: a function of one label has nothing to get wrong, and no edit could try it.
fn blank_row() -> SessionRow<SixLabels<GradeLabel>>
    ensures { result ≡ blank_row }
{
    let low = GradeLabel::low();
    SessionRow {
        marks: SixLabels {
            clearance: low,
            current: low,
            in_low: low,
            in_high: low,
            out_low: low,
            out_high: low,
        },
        state: SessionState::Closed,
    }
}

#[tactic(auto, unfolding(crate::specs::Batch::blank_rows))]
pub(crate) fn blank_rows() -> [SessionRow<SixLabels<GradeLabel>>; SESSION_PLACES]
    ensures { result ≡ blank_rows }
{
    [blank_row(); SESSION_PLACES]
}

#[tactic(auto, unfolding(crate::specs::Batch::blank_places))]
pub(crate) fn blank_places() -> [Entry; LOG_PLACES]
    ensures { result ≡ blank_places }
{
    [BLANK_ENTRY; LOG_PLACES]
}
