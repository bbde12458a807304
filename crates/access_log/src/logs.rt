//! The entries that were added to a lent slice of places.
ghost use Rattle.std.specs.Prelude.{◌≡◌, ◌<◌, [], ◌∷◌, reverse, length, drop, slice_set};
ghost use Rattle.reference.specs.Results.{answer, after};
ghost use Rattle.access_log.specs.Places.{places_of, next_place};

use reference::{Entry, Refusal};
use std::marker::Model;

// A count beside a lent slice, as the project wants it: no heap, and the part from the first free place on is lent out.
/// A log: the first `used` of the places hold its entries, the oldest first.
#[derive(Drop)]
pub struct Log<'a> {
    places: &'a mut [Entry],
    used: usize,
}

impl<'a> Model for Log<'a> {
    ghost use Rattle.access_log.specs.Places.{Places};

    ghost Value = { Places };

    ghost use Rattle.access_log.specs.Lists.{lists_of, Within};

    ghost view = { lists_of };

    ghost invariant = { Within };
}

fn write_first(free: &mut [Entry], entry: Entry)
    requires { 0 < length free.old }
    ensures { free.new ≡ slice_set free.old 0 entry }
{
    free[0] = entry;
}

impl<'a> Log<'a> {
    /// A log with no entry, whatever the places hold.
    pub fn new(places: &'a mut [Entry]) -> Log<'a>
        ensures history { result.history ≡ [] }
        ensures blank { result.blank ≡ places.old }
        ensures places { places_of result ≡ length places.old }
    {
        Log { places, used: 0 }
    }

    /// How many entries there are.
    pub fn count(&self) -> usize
        ensures { result ≡ length self.now.history }
    {
        self.entries().len()
    }

    /// The entries, the oldest first.
    pub fn entries(&self) -> &[Entry]
        ensures { reverse result.now ≡ self.now.history }
    {
        &self.places[..self.used]
    }

    /// Adds an entry at the first free place, and says which that is. Refused where no place is free.
    pub fn append(&mut self, entry: Entry) -> Result<usize, Refusal>
        ensures answer { result ≡ answer (λ _. length self.old.history) (next_place self.old) }
        ensures history { self.new.history ≡ after (λ _. entry ∷ self.old.history) self.old.history (next_place self.old) }
        ensures blank { self.new.blank ≡ after (λ _. drop 1 self.old.blank) self.old.blank (next_place self.old) }
        ensures places { places_of self.new ≡ places_of self.old }
    {
        let at = self.used;
        if at >= self.places.len() {
            return Err(Refusal::NoFreePlace);
        }
        write_first(&mut self.places[at..], entry);
        self.used = at + 1;
        Ok(at)
    }
}
