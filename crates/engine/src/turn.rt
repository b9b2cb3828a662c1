//! A turn on the walk that the marks tell.
ghost use Rattle.std.specs.Prelude.{◌≤◌};
ghost use Rattle.amount.specs.Rows.{Within};
ghost use Rattle.amount.specs.Spans.{within_prop};
ghost use Rattle.engine.specs.Spans.{turn_span};

use amount::measure::Scaled;

/// A turn: the last `count` waits before the entry of row `end` lead from the event to itself, and come to the total.
#[derive(Drop)]
pub(crate) struct Turn<X: Scaled> {
    pub(crate) end: u32,
    pub(crate) event: u32,
    pub(crate) count: u32,
    pub(crate) total: X,
    ghost few: { count ≤ 1000 },
    ghost near: { Within X.scale.places turn_span (X.scale.row total) } by { Prim.hlevel within_prop },
}
