//! The memory that a solve works in.
ghost use Rattle.std.specs.Prelude.{◌≡◌, IfOk, Decides};
ghost use Rattle.engine.specs.Solved.{Enough, table_size};
ghost use Rattle.engine.specs.Workspaces.{held, kept};

use amount::measure::Measure;
use std::alloc::{AllocError, Global};

/// The slices that a solve is lent. For n events it needs (n + 1) × n entries in each table, and n departures and loop places.
// two slices and numbers as marks, since solving promises what each of the caller's slices holds afterwards
#[derive(Drop)]
pub struct Workspace<'a, X> {
    /// The rows: entry k × n + v holds the greatest total of a walk of k waits to event v, or zero.
    pub rows: &'a mut [X],
    /// The marks: 1 plus the number of the wait that ends such a walk, or 0.
    pub marks: &'a mut [u32],
    /// The departures, one for each event.
    pub leaves: &'a mut [X],
    /// The loop: the numbers of its waits, in the order walked.
    pub circle: &'a mut [u32],
}

impl<X> Workspace<'_, X> {
    // Whether no slice is shorter than n events need.
    pub(crate) fn is_enough(&self, n: u32) -> bool
        ensures { Decides result (Enough n (held self.now)) }
    {
        let size = table_size(n);
        let events = n as usize;
        self.rows.len() >= size
            && self.marks.len() >= size
            && self.leaves.len() >= events
            && self.circle.len() >= events
    }
}

// How many entries each table has for n events.
fn table_size(n: u32) -> usize
    ensures { result ≡ table_size n }
{
    (n as usize + 1) * n as usize
}

/// The same memory on the heap, for programs that may use one.
#[derive(Drop)]
pub struct Space<X> {
    rows: Vec<X>,
    marks: Vec<u32>,
    leaves: Vec<X>,
    circle: Vec<u32>,
}

impl<X: Measure> Space<X> {
    /// Memory that is long enough for n events.
    pub fn new(alloc: Global, n: u32) -> Result<Space<X>, AllocError>
        ensures { IfOk result (λ s. Enough n (kept s)) }
    {
        let size = table_size(n);
        let events = n as usize;
        let zero = X::zero();
        Ok(Space {
            rows: vec![in alloc; zero; size]?,
            marks: vec![in alloc; 0u32; size]?,
            leaves: vec![in alloc; zero; events]?,
            circle: vec![in alloc; 0u32; events]?,
        })
    }
}

impl<X> Space<X> {
    /// Lends it as it is. What it holds after the loan is not said: whoever solves here keeps the workspace.
    pub fn lend(&mut self) -> Workspace<'_, X>
        ensures { held result ≡ kept self.old }
    {
        Workspace {
            rows: self.rows.as_mut_slice(),
            marks: self.marks.as_mut_slice(),
            leaves: self.leaves.as_mut_slice(),
            circle: self.circle.as_mut_slice(),
        }
    }
}

#[cfg(test)]
mod tests {
    use super::*;
    use amount::seconds::Seconds;

    #[test]
    fn memory_for_three_events(rt: HostRuntime) -> Result<(), AllocError> {
        let mut space = Space::<Seconds>::new(rt.alloc(), 3)?;
        let lent = space.lend();
        assert!(rt; lent.is_enough(3));
        assert!(rt; !lent.is_enough(4));
        Ok(())
    }
}
