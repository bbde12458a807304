//! Requests, and the entries that a log keeps of them.
ghost use Rattle.std.specs.Prelude.{◌≡◌};
ghost use Rattle.reference.specs.Entries.{entry};

use policies::{Kind, Verdict};

/// A session asks to use an object.
#[derive(Clone, Copy, PartialEq, Eq, Debug)]
pub struct Request {
    pub session: usize,
    pub object: usize,
    pub kind: Kind,
}

// Flat: with a `Request` inside, an entry would take 32 octets of the log for 24.
/// A request that was decided, with its verdict.
#[derive(Clone, Copy, PartialEq, Eq, Debug)]
pub struct Entry {
    pub session: usize,
    pub object: usize,
    pub kind: Kind,
    pub verdict: Verdict,
}

impl Entry {
    // Of two values, which `From` would want as a pair.
    /// The entry of a request with its verdict.
    pub fn new(request: Request, verdict: Verdict) -> Entry
        ensures { result ≡ entry request verdict }
    {
        Entry {
            session: request.session,
            object: request.object,
            kind: request.kind,
            verdict,
        }
    }
}
