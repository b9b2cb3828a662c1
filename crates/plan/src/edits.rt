//! Drafts: opening, and the edits.
ghost use Rattle.std.specs.Prelude.{◌≡◌};
ghost use Rattle.amount.specs.Rows.{places};
ghost use Rattle.network.specs.Networks.{plain};
ghost use Rattle.plan.specs.Plans.{draft_plan, fixed_plan, opened, settled};
ghost use Rattle.plan.specs.Rules.{Puts, Retimes, Drops};

use crate::fault::PlanFault;
use crate::waits::{WaitList, spanned};
use crate::{Draft, Fixed};
use amount::measure::{Measure, Scaled};
use amount::spanned::Spanned;
use network::{MOST_EVENTS, Wait};

impl<'a, X: Measure> Draft<'a, X> {
    // That the memory is still the one that was lent is a clause of each call: a type cannot speak of before and after.
    /// Opens a plan over this memory. One opened with more than 1,000 events has none.
    pub fn open(n: u32, memory: &'a mut [Wait<Spanned<X>>]) -> Draft<'a, X>
        ensures plan { draft_plan result ≡ opened n memory.old }
        ensures lender { result.list.memory.ghost_name ≡ memory.entry.ghost_name }
    {
        let events = if n > MOST_EVENTS { 0 } else { n };
        Draft {
            list: WaitList {
                events,
                count: 0,
                memory,
            },
        }
    }

    /// Puts a wait at the end of the list, and answers its number.
    pub fn put(&mut self, wait: Wait<X>) -> Result<u32, PlanFault>
        ensures rule { Puts (draft_plan self.old) (plain X.scale wait) result (draft_plan self.new) }
        ensures lender { self.new.list.memory.ghost_name ≡ self.old.list.memory.ghost_name }
    {
        let list = &mut self.list;
        if wait.start >= list.events {
            return Err(PlanFault::UnknownEvent(wait.start));
        }
        if wait.end >= list.events {
            return Err(PlanFault::UnknownEvent(wait.end));
        }
        let record = spanned(wait)?;
        let at = list.count;
        if at >= list.room() {
            return Err(PlanFault::Full(at));
        }
        list.memory[at as usize] = record;
        list.count = at + 1;
        Ok(at)
    }

    /// Gives wait i another amount.
    pub fn retime(&mut self, i: u32, amount: X) -> Result<(), PlanFault>
        ensures rule { Retimes (draft_plan self.old) i (places X.scale.places (X.scale.row amount)) result (draft_plan self.new) }
        ensures lender { self.new.list.memory.ghost_name ≡ self.old.list.memory.ghost_name }
    {
        let list = &mut self.list;
        if i >= list.count {
            return Err(PlanFault::NoSuchWait(i));
        }
        let amount = Spanned::new(amount)?;
        // Written whole, since a field assigned through the index gets no proof.
        let old = list.memory[i as usize];
        list.memory[i as usize] = Wait { amount, ..old };
        Ok(())
    }

    /// Takes wait i out of the list; later numbers fall by one.
    pub fn drop_wait(&mut self, i: u32) -> Result<(), PlanFault>
        ensures rule { Drops (draft_plan self.old) i result (draft_plan self.new) }
        ensures lender { self.new.list.memory.ghost_name ≡ self.old.list.memory.ghost_name }
    {
        let list = &mut self.list;
        if i >= list.count {
            return Err(PlanFault::NoSuchWait(i));
        }
        let (at, end) = (i as usize, list.count as usize);
        // `rotate_left` would write the wait into the record past the new end, which stays as found.
        list.memory.copy_within(at + 1..end, at);
        list.count -= 1;
        Ok(())
    }

    /// The same plan fixed.
    pub fn fix(self) -> Fixed<'a, X>
        ensures plan { fixed_plan result ≡ settled (draft_plan self.entry) }
        ensures lender { result.list.memory.ghost_name ≡ self.entry.list.memory.ghost_name }
    {
        Fixed { list: self.list }
    }
}
