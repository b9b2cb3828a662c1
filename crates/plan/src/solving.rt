//! Fixed plans: each is a network, and can be reopened.
ghost use Rattle.std.specs.Prelude.{◌≡◌};
ghost use Rattle.network.specs.Networks.{graph};
ghost use Rattle.engine.specs.Solved.{Solved};
ghost use Rattle.engine.specs.Workspaces.{held, SameSlices};
ghost use Rattle.plan.specs.Records.{meant};
ghost use Rattle.plan.specs.Plans.{draft_plan, fixed_plan, graph_of, reopened};
ghost use Rattle.plan.specs.Sound.{records_owed};

use crate::{Draft, Fixed};
use amount::measure::{Measure, Scaled};
use engine::{EngineFault, Workspace};
use network::{Network, Period, Wait};

impl<'a, X: Scaled + Copy> Network<X> for Fixed<'a, X> {
    ghost graph = { λ s. graph s.list.events (meant s.list.count s.list.memory.now) };

    ghost owed = { λ s. records_owed s.list.events s.list.count s.list.memory.now s.list.few s.list.short s.list.known };

    fn event_count(&self) -> u32 {
        self.list.events
    }

    fn wait_count(&self) -> u32 {
        self.list.count
    }

    fn wait(&self, i: u32) -> Wait<X> {
        let Wait { start, end, amount } = self.list.memory[i as usize];
        Wait {
            start,
            end,
            amount: amount.amount(),
        }
    }
}

// What is still lent is said by clauses, as in `edits` and in the engine.
impl<'a, X: Measure> Fixed<'a, X> {
    /// The same plan as a draft.
    pub fn reopen(self) -> Draft<'a, X>
        ensures plan { draft_plan result ≡ reopened (fixed_plan self.entry) }
        ensures lender { result.list.memory.ghost_name ≡ self.entry.list.memory.ghost_name }
    {
        Draft { list: self.list }
    }

    /// The period of this plan's waits, with the loop that shows it and the departures in this memory; or why there is none.
    pub fn solve(&self, space: &mut Workspace<'_, X>) -> Result<Period<X>, EngineFault>
        ensures solved { Solved X.scale (graph_of (fixed_plan self.now)) result (held space.old) (held space.new) }
        ensures lent { SameSlices space.old space.new }
    {
        engine::solve(self, space)
    }
}
