//! Turns: where the greatest walks of n waits meet an event for the second time.
ghost use Rattle.std.specs.Prelude.{◌<◌};
ghost use Rattle.engine.specs.Filled.{mark_in};
ghost use Rattle.engine.specs.Limits.{TurnsSo, OfGreaterMean, Limiting};

use crate::filled::Filled;
use crate::turn::Turn;
use amount::measure::Measure;
use network::{MOST_EVENTS, Network};

// The turn of the greatest walk of n waits to event v: it is walked back until an event comes a second time.
fn trace_turn<X: Measure, N: Network<X>>(filled: &Filled<'_, X, N>, v: u32) -> Turn<X>
    requires known { v < filled.now.graph.events }
    requires live { 0 < mark_in filled.now filled.now.graph.events v }
    ensures { TurnsSo X.scale filled.now v result }
{
    let n = filled.event_count();
    // after how many waits an event was met, 1,000 at most: with a u16 the array takes half the room; it is local, since loop
    // space and departures must stay as found
    let mut seen = [None; MOST_EVENTS as usize];
    let mut at = v;
    let mut walked = 0;
    // walked back until an event is met again; as in `loops`, an iterator that walks back is no plainer
    let first = loop {
        if let Some(first) = seen[at as usize] {
            break u32::from(first);
        }
        seen[at as usize] = Some(walked as u16);
        at = filled.start(filled.last_wait(n - walked, at));
        walked += 1;
    };
    let end = n - first;
    Turn {
        end,
        event: at,
        count: walked - first,
        total: filled.row(end, at) - filled.row(n - walked, at),
    }
}

// The turn of greater mean; of two with the same mean the one held.
fn of_greater_mean<X: Measure>(held: Turn<X>, turn: Turn<X>) -> Turn<X>
    ensures { OfGreaterMean X.scale held turn result }
{
    let new = turn.total * held.count;
    let old = held.total * turn.count;
    if new <= old { held } else { turn }
}

// The limiting turn: the one of greatest mean among those of the greatest walks of n waits, if there are such walks.
pub(crate) fn limiting_turn<X: Measure, N: Network<X>>(filled: &Filled<'_, X, N>) -> Option<Turn<X>>
    ensures { Limiting X.scale filled.now filled.now.graph.events result }
{
    let n = filled.event_count();
    let mut limiting = None;
    // tried: what `filter`, `map` and `reduce` promise does not say that no event is left out
    for v in 0..n {
        if filled.has_walk(n, v) {
            let turn = trace_turn(filled, v);
            limiting = Some(match limiting {
                Some(held) => of_greater_mean(held, turn),
                None => turn,
            });
        }
    }
    limiting
}
