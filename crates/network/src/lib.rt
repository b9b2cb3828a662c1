//! Networks: events that recur in every round, and the waits between them.

#![tactic(auto)]

ghost use Rattle.std.specs.Prelude.{◌≡◌, ◌<◌, length};
ghost use Rattle.network.specs.Networks.{Graph, Owed, plain, wait_at};

use amount::measure::Scaled;

/// The most events that a network has.
pub const MOST_EVENTS: u32 = 1_000;

/// The most waits that a network has.
pub const MOST_WAITS: u32 = 20_000;

/// A wait: in the next round the end event leaves at least the amount after the start event left in this one.
#[derive(Clone, Copy, PartialEq, Eq, Debug, Default)]
pub struct Wait<X> {
    pub start: u32,
    pub end: u32,
    pub amount: X,
}

/// A period: the total of a loop over its count.
#[derive(Clone, Copy, PartialEq, Eq, Debug)]
pub struct Period<X> {
    pub total: X,
    pub count: u32,
}

/// A network answers three questions, and no question changes it.
pub trait Network<X: Scaled> {
    // what it means
    ghost graph: { Self → Graph };

    // what every network owes
    ghost owed: { (s : Self) → Owed (graph s) };

    /// How many events it has.
    fn event_count(&self) -> u32
        ensures { result ≡ (graph self.now).events };

    /// How many waits it has.
    fn wait_count(&self) -> u32
        ensures { result ≡ length (graph self.now).waits };

    /// The wait of number i, which the asker keeps below the wait count.
    fn wait(&self, i: u32) -> Wait<X>
        requires { i < length (graph self.now).waits }
        ensures is { plain X.scale result ≡ wait_at (graph self.now).waits i }
        ensures starts { result.start < (graph self.now).events }
        ensures ends { result.end < (graph self.now).events };
}
