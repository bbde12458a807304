//! What is wrong with a tag.

/// The first octet of the input that breaks a rule of the tag.
#[derive(Clone, Copy, PartialEq, Eq, Debug)]
pub struct TagFault {
    pub octet: usize,
}
