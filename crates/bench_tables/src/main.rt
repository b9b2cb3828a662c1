//! The engine's side of the benchmark: solves a plan of 1,000 events and 20,000 waits drawn by a linear congruence, and
//! prints a checksum of the two tables; with the word `time`, also the milliseconds that solving took. The baseline in C
//! draws the same network.

#![tactic(auto)]

use amount::measure::SPAN;
use amount::seconds::Seconds;
use amount::spanned::Spanned;
use engine::{Space, Workspace};
use network::{MOST_EVENTS, MOST_WAITS, Wait};
use plan::AnyPlan;
use plan::applying::{apply, open_plan};
use plan::calls::Call;
use std::time::Instant;
use std::{env, io};

// A linear congruence, as the baseline in C has it. The tests have their own: a crate for these nine lines is no plainer.
#[derive(Drop)]
struct Draw {
    state: u64,
}

impl Draw {
    fn below(&mut self, limit: u32) -> u32 {
        self.state = self
            .state
            .wrapping_mul(6_364_136_223_846_793_005)
            .wrapping_add(1_442_695_040_888_963_407);
        let high = (self.state >> 33) as u32;
        if limit == 0 { 0 } else { high % limit }
    }

    fn wait(&mut self) -> Wait<Seconds> {
        let start = self.below(MOST_EVENTS);
        let end = self.below(MOST_EVENTS);
        let seconds = i64::from(self.below(2 * SPAN as u32 + 1)) - SPAN;
        Wait {
            start,
            end,
            amount: Seconds { seconds },
        }
    }
}

// Makes the call on the plan; its answer is in the tables.
fn make<'a>(
    plan: AnyPlan<'a, Seconds>,
    call: &Call<Seconds>,
    space: &mut Workspace<'_, Seconds>,
) -> AnyPlan<'a, Seconds> {
    let (plan, _answer) = apply(plan, call, space);
    plan
}

// Puts the drawn waits and fixes the plan.
fn drawn<'a>(
    memory: &'a mut [Wait<Spanned<Seconds>>],
    space: &mut Workspace<'_, Seconds>,
) -> AnyPlan<'a, Seconds> {
    let mut draw = Draw { state: 1 };
    let mut plan = open_plan(MOST_EVENTS, memory);
    for _ in 0..MOST_WAITS {
        plan = make(plan, &Call::Put(draw.wait()), space);
    }
    make(plan, &Call::Fix, space)
}

fn checksum(space: &Workspace<'_, Seconds>) -> u64 {
    space
        .rows
        .iter()
        .zip(space.marks.iter())
        .fold(0u64, |sum, (row, mark)| {
            sum.wrapping_mul(31)
                .wrapping_add(row.seconds.cast_unsigned())
                .wrapping_mul(31)
                .wrapping_add(u64::from(*mark))
        })
}

fn run(rt: &HostRuntime) -> io::Result<()> {
    let heap = rt.alloc();
    let mut space = Space::new(heap, MOST_EVENTS)?;
    let mut lent = space.lend();
    let blank = Wait::<Spanned<Seconds>>::default();
    let mut memory = vec![in heap; blank; MOST_WAITS as usize]?;
    let plan = drawn(memory.as_mut_slice(), &mut lent);
    let start = Instant::now(rt)?;
    let _plan = make(plan, &Call::Solve, &mut lent);
    let took = start.elapsed(rt)?;
    let sum = checksum(&lent);
    println!(rt; "tables {sum}")?;
    if env::args(rt)?.count() > 1 {
        let milliseconds = took.as_millis();
        println!(rt; "milliseconds {milliseconds}")?;
    }
    Ok(())
}

fn main(rt: HostRuntime) -> io::Result<()> {
    run(&rt)
}
