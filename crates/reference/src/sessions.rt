//! The states of a session.

/// A session is open from its start until its first closing.
#[derive(Clone, Copy, PartialEq, Eq, Debug)]
pub enum SessionState {
    Open,
    Closed,
}
