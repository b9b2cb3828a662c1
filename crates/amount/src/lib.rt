//! Amounts: what a wait takes, in one of several measures.

#![tactic(auto)]

pub mod filed;
pub mod measure;
pub mod reversed;
pub mod reversed_seconds;
pub mod seconds;
pub mod seconds_metres;
pub mod spanned;
