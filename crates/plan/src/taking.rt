//! Taking in: the waits of another network, all of them or none.
ghost use Rattle.std.specs.Prelude.{◌≡◌};
ghost use Rattle.plan.specs.Plans.{draft_plan};
ghost use Rattle.plan.specs.Rules.{Appends};
ghost use Rattle.plan.specs.Taking.{TakesIn};

use crate::Draft;
use crate::fault::PlanFault;
use crate::waits::spanned;
use amount::filed::Filed;
use amount::measure::Measure;
use network::Network;

// What is still lent is said by clauses, as in `edits`.
impl<'a, X: Measure> Draft<'a, X> {
    /// Adds the waits of a network in order, and answers how many came.
    pub(crate) fn append<N: Network<X>>(&mut self, net: &N) -> Result<u32, PlanFault>
        ensures rule { Appends (draft_plan self.old) (N.graph net.now) result (draft_plan self.new) }
        ensures lender { self.new.list.memory.ghost_name ≡ self.old.list.memory.ghost_name }
    {
        let list = &mut self.list;
        let offered = net.event_count();
        if offered != list.events {
            return Err(PlanFault::BadCount(offered));
        }
        let more = net.wait_count();
        let at = list.count;
        let all = at + more;
        if all > list.room() {
            return Err(PlanFault::Full(at));
        }
        let records = &mut list.memory[at as usize..all as usize];
        // A network is asked for its waits by number.
        for (i, record) in records.iter_mut().enumerate() {
            *record = spanned(net.wait(i as u32)).unwrap();
        }
        list.count = all;
        Ok(more)
    }
}

impl<'a, X: Filed> Draft<'a, X> {
    /// Opens the bytes of a file for this measure, adds its waits, and answers how many came.
    pub fn take_in(&mut self, bytes: &[u8]) -> Result<u32, PlanFault>
        ensures rule { TakesIn X.NUMBER X.scale.places (draft_plan self.old) bytes.now result (draft_plan self.new) }
        ensures lender { self.new.list.memory.ghost_name ≡ self.old.list.memory.ghost_name }
    {
        // tried with `let else`: of its `else` the prover is told only that the pattern does not fit
        match file::open::<X>(bytes) {
            Ok(file) => self.append(&file),
            Err(_) => Err(PlanFault::NotTakenIn),
        }
    }
}
