//! Departures: how late the events leave at the mean of the limiting turn.
ghost use Rattle.std.specs.Prelude.{◌≡◌, ℕ, ◌<◌, ◌≤◌, length, drop};
ghost use Rattle.amount.specs.Rows.{Within};
ghost use Rattle.amount.specs.Groups.{row_group};
ghost use Rattle.engine.specs.Spans.{entry_span};
ghost use Rattle.engine.specs.Solved.{row_at};
ghost use Rattle.engine.specs.Turns.{given};
ghost use Rattle.engine.specs.Filled.{Leaves};

use crate::filled::Filled;
use crate::turn::Turn;
use amount::measure::Measure;
use network::Network;

// What a walk of k waits and this total gives the event where it ends.
fn offered<X: Measure>(total: X, k: u32, turn: &Turn<X>) -> X
    requires few { k ≤ 1000 }
    requires near { Within X.scale.places entry_span (X.scale.row total) }
    ensures { X.scale.row result ≡ given (row_group X.scale.order) (X.scale.row total) k (X.scale.row turn.now.total) turn.now.count }
{
    total * turn.count - turn.total * k
}

// The departure of event v: the greatest that walks of fewer than n waits give it, the walk of no waits zero.
fn departure<X: Measure, N: Network<X>>(filled: &Filled<'_, X, N>, turn: &Turn<X>, v: u32) -> X
    requires { v < filled.now.graph.events }
    ensures { Leaves X.scale filled.now (X.scale.row turn.now.total) turn.now.count v filled.now.graph.events (X.scale.row result) }
{
    let n = filled.event_count();
    let mut latest = X::zero();
    for k in 1..n {
        if filled.has_walk(k, v) {
            latest = latest.max(offered(filled.row(k, v), k, turn));
        }
    }
    latest
}

// Writes the departure of every event.
pub(crate) fn write_departures<X: Measure, N: Network<X>>(
    filled: &Filled<'_, X, N>,
    turn: &Turn<X>,
    leaves: &mut [X],
)
    requires { filled.now.graph.events ≤ length leaves.old }
    ensures shown { (v : ℕ) → v < filled.now.graph.events → Leaves X.scale filled.now (X.scale.row turn.now.total) turn.now.count v filled.now.graph.events (row_at X.scale leaves.new v) }
    ensures past { drop filled.now.graph.events leaves.new ≡ drop filled.now.graph.events leaves.old }
{
    let n = filled.event_count() as usize;
    for (v, leave) in leaves[..n].iter_mut().enumerate() {
        *leave = departure(filled, turn, v as u32);
    }
}
