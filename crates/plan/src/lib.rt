//! Plans: lists of waits that a planner edits as drafts, fixes and solves.

#![tactic(auto)]

use crate::waits::WaitList;
use amount::measure::Scaled;

pub mod applying;
pub mod calls;
mod edits;
pub mod fault;
pub mod solving;
mod taking;
mod waits;

/// A draft: its waits can be edited.
#[derive(Drop)]
pub struct Draft<'a, X: Scaled> {
    list: WaitList<'a, X>,
}

/// A fixed plan: no edit reaches it until it is reopened.
#[derive(Drop)]
pub struct Fixed<'a, X: Scaled> {
    list: WaitList<'a, X>,
}

/// One of the two states of a plan.
// The states are type arguments: with the two structs named here, callers at a given measure got no proof.
#[derive(Drop)]
pub enum InState<D, F> {
    Editing(D),
    Settled(F),
}

/// A plan in either state.
pub type AnyPlan<'a, X> = InState<Draft<'a, X>, Fixed<'a, X>>;
