//! Tests that many crates share: small networks against a listing of every loop and every walk, files written word by
//! word, and the printed report. What is expected comes from the listing here or from hand computation.

#![tactic(auto)]

mod listing;
mod random;
#[cfg(test)]
mod reporting;
#[cfg(test)]
mod solving;
mod writing;
