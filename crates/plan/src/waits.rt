//! The list of a plan's waits: their records stand first in the memory lent to it.
ghost use Rattle.std.specs.Prelude.{◌≤◌, length, take, All};
ghost use Rattle.plan.specs.Records.{Between, MakesRecord};

use amount::measure::{Measure, Scaled};
use amount::spanned::{OutOfSpan, Spanned};
use network::{MOST_WAITS, Wait};

/// The event count of a plan, how many waits it has, and the records of these.
// A count beside the memory, as the host lends that, and records past the list stay as found.
#[derive(Drop)]
pub(crate) struct WaitList<'a, X: Scaled> {
    pub(crate) events: u32,
    pub(crate) count: u32,
    pub(crate) memory: &'a mut [Wait<Spanned<X>>],
    ghost few: { events ≤ 1000 },
    ghost short: { count ≤ 20000 },
    ghost fits: { count ≤ length memory.now },
    ghost known: { All (Between events) (take count memory.now) },
}

impl<'a, X: Scaled> WaitList<'a, X> {
    ghost use Rattle.std.specs.Prelude.{◌≡◌};
    ghost use Rattle.plan.specs.Plans.{listed, room};

    /// How many waits it can have, however long its memory.
    pub(crate) fn room(&self) -> u32
        ensures { result ≡ room (listed self.now) }
    {
        self.memory.len().min(MOST_WAITS as usize) as u32
    }
}

/// The record of a wait, if its amount lies in the span.
pub(crate) fn spanned<X: Measure>(wait: Wait<X>) -> Result<Wait<Spanned<X>>, OutOfSpan>
    ensures { MakesRecord wait result }
{
    let Wait { start, end, amount } = wait;
    Ok(Wait {
        start,
        end,
        amount: Spanned::new(amount)?,
    })
}
