//! Secrecy and integrity at once.
use crate::integrity_policy::Integrity;
use crate::secrecy_policy::Secrecy;
use policies::Product;

/// Secrecy of the first part of a label and integrity of the second, with six labels for each.
pub type Joint<A, B> = Product<Secrecy<A>, Integrity<B>>;
