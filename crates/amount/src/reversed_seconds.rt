//! Measure 3 under its own name: it is a measure turned round.

pub use crate::reversed::ReversedSeconds;
