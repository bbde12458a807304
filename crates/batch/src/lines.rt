//! The lines of an input: each ends with CR LF, the last perhaps with the input.
ghost use Rattle.std.specs.Prelude.{◌≡◌, ◌+◌, ◌^◌, ◌<◌, [], length};

use crate::breaks::split_line;

/// A line without its CR LF, and its place: that of an input's first line is 1.
#[derive(Clone, Copy)]
pub(crate) struct Line<'a> {
    pub(crate) place: usize,
    pub(crate) octets: &'a [u8],
}

/// Goes through the lines of an input: `taken` lines were handed out, and `rest` is left.
#[derive(Drop)]
pub(crate) struct Lines<'a> {
    rest: &'a [u8],
    taken: usize,
    // Each line that is left has an octet at least, so that the count of lines fits.
    ghost counted: { taken + length rest.now < 2 ^ 64 },
}

impl<'a> Lines<'a> {
    ghost use Rattle.batch.specs.Lines.{lines_of, lines_left};

    pub(crate) fn new(input: &'a [u8]) -> Lines<'a>
        ensures left { lines_left result ≡ lines_of [] input.now }
        ensures none { result.taken ≡ 0 }
    {
        Lines {
            rest: input,
            taken: 0,
        }
    }
}

impl<'a> Iterator for Lines<'a> {
    type Item = Line<'a>;

    ghost use Rattle.std.specs.Iterator.{item_count};
    ghost use Rattle.batch.specs.Lines.{lines_left, GivesLine};

    ghost next_gives = { GivesLine };

    ghost remaining = { item_count lines_left };

    fn next(&mut self) -> Option<Line<'a>> {
        let (octets, rest) = split_line(self.rest)?;
        self.rest = rest;
        // Counted here and not by `enumerate`, so that a clause can name it.
        self.taken += 1;
        Some(Line {
            place: self.taken,
            octets,
        })
    }
}
