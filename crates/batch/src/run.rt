//! A batch on its way.
ghost use Rattle.std.specs.Prelude.{◌≡◌, ◌++◌, OnOk, []};
ghost use Rattle.answers.specs.Answers.{output_of};
ghost use Rattle.batch.specs.Lines.{lines_of, lines_left};

use crate::lines::Lines;
use answers::{Answer, BatchRefusal, put};
use std::alloc::{AllocError, Global};

/// What a record came to.
pub(crate) type Outcome = Result<Answer, BatchRefusal>;

/// The lines of a batch that are left, and what was written for those before them.
#[derive(Drop)]
pub(crate) struct Run<'a> {
    pub(crate) heap: Global,
    pub(crate) lines: Lines<'a>,
    pub(crate) out: Vec<u8>,
}

impl<'a> Run<'a> {
    pub(crate) fn new(heap: Global, input: &'a [u8]) -> Run<'a>
        ensures left { lines_left result.lines ≡ lines_of [] input.now }
        ensures none { result.lines.taken ≡ 0 }
        ensures written { result.out.items ≡ [] }
    {
        Run {
            heap,
            lines: Lines::new(input),
            out: Vec::new(heap),
        }
    }

    /// Writes what the record at a place came to.
    pub(crate) fn put(&mut self, place: usize, outcome: Outcome) -> Result<(), AllocError>
        ensures written { OnOk result (self.new.out.items ≡ self.old.out.items ++ output_of place outcome) }
        ensures left { self.new.lines ≡ self.old.lines }
    {
        put(self.heap, &mut self.out, place, outcome)
    }
}
