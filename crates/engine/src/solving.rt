//! Solving a network: its period, the loop that sets it, and the departures.
ghost use Rattle.std.specs.Prelude.{◌≡◌};
ghost use Rattle.engine.specs.Solved.{memory, Enough, Solved};
ghost use Rattle.engine.specs.Workspaces.{held, SameSlices};

use crate::EngineFault;
use crate::departures::write_departures;
use crate::filled::Filled;
use crate::loops::write_loop;
use crate::tables::fill_tables;
use crate::turns::limiting_turn;
use crate::workspace::Workspace;
use amount::measure::Measure;
use network::{Network, Period};

// The four slices one by one: read out of the workspace, each would stand at several lifetimes, which gets no proof.
// Fills the two tables, and shows the period with its loop and the departures, or says that there is no closed walk.
fn solve_in<X: Measure, N: Network<X>>(
    net: &N,
    rows: &mut [X],
    marks: &mut [u32],
    leaves: &mut [X],
    circle: &mut [u32],
) -> Result<Period<X>, EngineFault>
    requires { Enough (N.graph net.now).events (memory rows.old marks.old leaves.old circle.old) }
    ensures { Solved X.scale (N.graph net.now) result (memory rows.old marks.old leaves.old circle.old) (memory rows.new marks.new leaves.new circle.new) }
{
    let n = net.event_count();
    fill_tables(net, rows, marks);
    let filled = Filled::new(net, rows, marks);
    let Some(turn) = limiting_turn(&filled) else {
        return Err(EngineFault::NoLoop(n));
    };
    write_loop(&filled, &turn, circle);
    write_departures(&filled, &turn, leaves);
    Ok(Period {
        total: turn.total,
        count: turn.count,
    })
}

// That the slices are still those that were lent is a clause of each call with a workspace: a type cannot speak of before
// and after.
/// The period of the network, with its loop and the departures, in this memory; or why there is none.
pub fn solve<X: Measure, N: Network<X>>(
    net: &N,
    space: &mut Workspace<'_, X>,
) -> Result<Period<X>, EngineFault>
    ensures solved { Solved X.scale (N.graph net.now) result (held space.old) (held space.new) }
    ensures lent { SameSlices space.old space.new }
{
    let n = net.event_count();
    if !space.is_enough(n) {
        return Err(EngineFault::ShortTable(n));
    }
    solve_in(net, space.rows, space.marks, space.leaves, space.circle)
}
