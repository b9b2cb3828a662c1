//! Tests of plans: histories of calls, worked out by hand.

#![tactic(auto)]

#[cfg(test)]
mod tests {
    use amount::measure::Measure;
    use amount::seconds::Seconds;
    use amount::seconds_metres::SecondsMetres;
    use amount::spanned::Spanned;
    use engine::{EngineFault, Space, Workspace};
    use network::{Period, Wait};
    use plan::Draft;
    use plan::applying::{apply_filed, open_plan};
    use plan::calls::{Answer, Call, Declined, FiledCall, Reply};
    use plan::fault::{PlanFault, event_count_will_do};
    use std::alloc::Global;
    use std::test::Fail;

    // A supplier's file of three events and five waits, whose period is 2400 over 3.
    const FILE: &[u8; 56] = b"\
        \x11\x00\x00\x03\x20\x00\x00\x01\x30\x00\x02\x58\x20\x00\x10\x00\x30\x00\x03\x84\
        \x20\x00\x10\x02\x30\x00\x01\x2C\x20\x00\x20\x00\x30\x00\x05\xDC\x20\x00\x20\x02\
        \x30\x00\x00\xF0\x40\x00\x00\x02\x30\x00\x05\xDC\x51\x00\x00\x00";

    // Makes these calls, in order, on a new plan of n events with room for so many waits, and gives the number of the first
    // that has another answer than the one beside it.
    fn first_wrong(
        alloc: Global,
        n: u32,
        room: usize,
        space: &mut Workspace<'_, Seconds>,
        calls: &[(FiledCall<'_, Seconds>, Answer<Seconds>)],
    ) -> Result<Option<usize>, Fail> {
        let mut memory = vec![in alloc; Wait::<Spanned<Seconds>>::default(); room]?;
        let mut plan = open_plan(n, memory.as_mut_slice());
        for (i, (call, answer)) in calls.iter().enumerate() {
            let (after, told) = apply_filed(plan, call, space);
            if told != *answer {
                return Ok(Some(i));
            }
            plan = after;
        }
        Ok(None)
    }

    fn put<'b>(start: u32, end: u32, seconds: i64) -> FiledCall<'b, Seconds> {
        FiledCall::Other(Call::Put(Wait {
            start,
            end,
            amount: Seconds { seconds },
        }))
    }

    fn retime<'b>(i: u32, seconds: i64) -> FiledCall<'b, Seconds> {
        FiledCall::Other(Call::Retime(i, Seconds { seconds }))
    }

    fn drop_wait<'b>(i: u32) -> FiledCall<'b, Seconds> {
        FiledCall::Other(Call::DropWait(i))
    }

    // The answer that shows this period.
    fn shown(seconds: i64, count: u32) -> Answer<Seconds> {
        Ok(Reply::Shown(Period {
            total: Seconds { seconds },
            count,
        }))
    }

    fn declined(fault: PlanFault) -> Answer<Seconds> {
        Err(Declined::Plan(fault))
    }

    #[test]
    fn event_counts(rt: HostRuntime) {
        for (n, answer) in [
            (0, Err(PlanFault::BadCount(0))),
            (1, Ok(())),
            (1_000, Ok(())),
            (1_001, Err(PlanFault::BadCount(1_001))),
        ] {
            assert_eq!(rt; event_count_will_do(n), answer, "at {n}");
        }
    }

    #[test]
    fn room_of_two(rt: HostRuntime) -> Result<(), Fail> {
        let mut space = Space::new(rt.alloc(), 3)?;
        let calls = [
            (put(0, 2, 5), Ok(Reply::Number(0))),
            (put(0, 3, 5), declined(PlanFault::UnknownEvent(3))),
            (put(4, 3, 5), declined(PlanFault::UnknownEvent(4))),
            (put(0, 1, 86_401), declined(PlanFault::OutOfSpan(0))),
            (put(1, 1, 7), Ok(Reply::Number(1))),
            (put(1, 1, 7), declined(PlanFault::Full(2))),
            (drop_wait(0), Ok(Reply::Done)),
            (put(2, 2, 240), Ok(Reply::Number(1))),
            (retime(0, 86_400), Ok(Reply::Done)),
            (retime(0, 86_401), declined(PlanFault::OutOfSpan(0))),
            (retime(2, 1), declined(PlanFault::NoSuchWait(2))),
            (drop_wait(2), declined(PlanFault::NoSuchWait(2))),
        ];
        let wrong = first_wrong(rt.alloc(), 3, 2, &mut space.lend(), &calls)?;
        assert_eq!(rt; wrong, None);
        Ok(())
    }

    // A retime changes the period, and a fixed plan takes no edit.
    #[test]
    fn solved_twice(rt: HostRuntime) -> Result<(), Fail> {
        // longer than two events need
        let mut space = Space::new(rt.alloc(), 3)?;
        let fix = FiledCall::Other(Call::Fix);
        let solve = FiledCall::Other(Call::Solve);
        let calls = [
            (put(0, 0, 300), Ok(Reply::Number(0))),
            (put(1, 1, 500), Ok(Reply::Number(1))),
            (solve, Err(Declined::Barred)),
            (fix, Ok(Reply::Done)),
            (retime(1, 200), Err(Declined::Barred)),
            (solve, shown(500, 1)),
            (FiledCall::Other(Call::Reopen), Ok(Reply::Done)),
            (retime(1, 200), Ok(Reply::Done)),
            (fix, Ok(Reply::Done)),
            (solve, shown(300, 1)),
        ];
        let wrong = first_wrong(rt.alloc(), 2, 4, &mut space.lend(), &calls)?;
        assert_eq!(rt; wrong, None);
        Ok(())
    }

    #[test]
    fn taken_in(rt: HostRuntime) -> Result<(), Fail> {
        let mut space = Space::new(rt.alloc(), 3)?;
        let mut lent = space.lend();
        let calls = [
            (
                FiledCall::TakeIn(b"\x11\x00\x00"),
                declined(PlanFault::NotTakenIn),
            ),
            (FiledCall::TakeIn(FILE), Ok(Reply::Came(5))),
            (FiledCall::TakeIn(FILE), declined(PlanFault::Full(5))),
            (FiledCall::Other(Call::Fix), Ok(Reply::Done)),
            (FiledCall::TakeIn(FILE), Err(Declined::Barred)),
            (FiledCall::Other(Call::Solve), shown(2400, 3)),
        ];
        let wrong = first_wrong(rt.alloc(), 3, 6, &mut lent, &calls)?;
        assert_eq!(rt; wrong, None);
        let leaves = [2100, 1500, 0].map(|seconds| Seconds { seconds });
        assert!(rt; &*lent.leaves == leaves.as_slice());
        Ok(())
    }

    // A plan opened with too many events has none, and takes in no file.
    #[test]
    fn no_events(rt: HostRuntime) -> Result<(), Fail> {
        // longer than no events need
        let mut space = Space::new(rt.alloc(), 3)?;
        let calls = [
            (put(0, 0, 5), declined(PlanFault::UnknownEvent(0))),
            (FiledCall::TakeIn(FILE), declined(PlanFault::BadCount(3))),
            (FiledCall::Other(Call::Fix), Ok(Reply::Done)),
            (
                FiledCall::Other(Call::Solve),
                Err(Declined::Engine(EngineFault::NoLoop(0))),
            ),
        ];
        let wrong = first_wrong(rt.alloc(), 1_001, 2, &mut space.lend(), &calls)?;
        assert_eq!(rt; wrong, None);
        Ok(())
    }

    // A wait from an event to itself.
    fn driven(event: u32, seconds: i64, metres: i64) -> Wait<SecondsMetres> {
        Wait {
            start: event,
            end: event,
            amount: SecondsMetres { seconds, metres },
        }
    }

    // In a measure of two places the second is the first outside its span, and decides between equal first places.
    #[test]
    fn two_places(rt: HostRuntime) -> Result<(), Fail> {
        let mut memory = [Wait::<Spanned<SecondsMetres>>::default(); 2];
        let mut draft = Draft::open(2, &mut memory);
        for (wait, answer) in [
            (driven(0, 600, 86_401), Err(PlanFault::OutOfSpan(1))),
            (driven(0, 600, 40), Ok(0)),
            (driven(1, 600, 55), Ok(1)),
        ] {
            assert_eq!(rt; draft.put(wait), answer);
        }
        let mut space = Space::new(rt.alloc(), 2)?;
        let period = draft.fix().solve(&mut space.lend());
        let total = driven(1, 600, 55).amount;
        assert_eq!(rt; period, Ok(Period { total, count: 1 }));
        Ok(())
    }
}
