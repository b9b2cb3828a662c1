//! The limiting loop: the waits of a turn, in the order walked from its lowest event.
ghost use Rattle.std.specs.Prelude.{◌≡◌, ◌<◌, ◌≤◌, length, take, drop};
ghost use Rattle.engine.specs.Limits.{CanWalk, LowestAfter, LoopOf, Offset};

use crate::filled::Filled;
use crate::turn::Turn;
use amount::measure::Measure;
use network::Network;

// After how many other waits, walked back, the one that starts at the lowest event comes.
fn lowest_offset<X: Measure, N: Network<X>>(filled: &Filled<'_, X, N>, turn: &Turn<X>) -> u32
    requires { CanWalk X.scale.places filled.now turn.now }
    ensures { LowestAfter X.scale.places filled.now turn.now result }
{
    let mut at = turn.event;
    let mut lowest = filled.event_count();
    let mut offset = 0;
    // an iterator that walks back would hold the same row and event, and give the same number: it is no plainer
    for t in 0..turn.count {
        at = filled.start(filled.last_wait(turn.end - t, at));
        if at < lowest {
            lowest = at;
            offset = t;
        }
    }
    offset
}

// Where a wait stands in the loop, by how many come before it walked back.
fn offset_from(lowest: u32, t: u32, count: u32) -> u32
    requires { (lowest < count) × (t < count) × (count ≤ 1000) }
    ensures { Offset lowest count t result }
{
    if t <= lowest {
        lowest - t
    } else {
        lowest + count - t
    }
}

// Writes the waits of the turn, in the order walked from its lowest event.
pub(crate) fn write_loop<X: Measure, N: Network<X>>(
    filled: &Filled<'_, X, N>,
    turn: &Turn<X>,
    circle: &mut [u32],
)
    requires known { CanWalk X.scale.places filled.now turn.now }
    requires room { turn.now.count ≤ length circle.old }
    ensures shown { LoopOf X.scale.places filled.now turn.now (take turn.now.count circle.new) }
    ensures past { drop turn.now.count circle.new ≡ drop turn.now.count circle.old }
{
    let lowest = lowest_offset(filled, turn);
    let mut at = turn.event;
    // as there, an iterator that walks back is no plainer
    for t in 0..turn.count {
        let e = filled.last_wait(turn.end - t, at);
        circle[offset_from(lowest, t, turn.count) as usize] = e;
        at = filled.start(e);
    }
}
