//! What the console prints.

use amount::filed::{Filed, MOST_PLACES};
use arrayvec::ArrayVec;
use network::Period;
use plan::calls::{Answer, Declined, Reply};
use refusal::Refusal;
use std::fmt;

// An amount: its places joined by commas.
#[derive(Clone, Copy)]
struct Row<X>(X);

impl<X: Filed> fmt::Display for Row<X> {
    fn fmt<W: fmt::Write>(&self, f: &mut fmt::Formatter<W>) -> fmt::Result {
        let mut places = ArrayVec::from([0i64; MOST_PLACES]);
        places.truncate(X::PLACES);
        self.0.to_places(&mut places);
        if let [first, rest @ ..] = places.as_slice() {
            write!(f, "{first}")?;
            for place in rest {
                write!(f, ",{place}")?;
            }
        }
        Ok(())
    }
}

// A period, the wait numbers of its loop, and the departure of each event.
#[derive(Clone, Copy)]
struct Solution<'a, X> {
    period: Period<X>,
    circle: &'a [u32],
    leaves: &'a [X],
}

impl<X: Filed> fmt::Display for Solution<'_, X> {
    fn fmt<W: fmt::Write>(&self, f: &mut fmt::Formatter<W>) -> fmt::Result {
        let Period { total, count } = self.period;
        write!(f, "period {} / {count}\nloop", Row(total))?;
        for wait in self.circle.iter().take(count as usize) {
            write!(f, " {wait}")?;
        }
        for (event, departure) in self.leaves.iter().enumerate() {
            write!(f, "\nleaves {event} {}", Row(*departure))?;
        }
        Ok(())
    }
}

// The answer to a call, with the loop and the departures in the memory that the engine was lent.
#[derive(Clone, Copy)]
pub(crate) struct Told<'a, X> {
    pub(crate) answer: Answer<X>,
    pub(crate) circle: &'a [u32],
    pub(crate) leaves: &'a [X],
}

impl<X: Filed> fmt::Display for Told<'_, X> {
    fn fmt<W: fmt::Write>(&self, f: &mut fmt::Formatter<W>) -> fmt::Result {
        match self.answer {
            Ok(Reply::Number(wait)) => write!(f, "wait {wait}"),
            Ok(Reply::Came(waits)) => write!(f, "came {waits}"),
            Ok(Reply::Done) => write!(f, "done"),
            Ok(Reply::Shown(period)) => Solution {
                period,
                circle: self.circle,
                leaves: self.leaves,
            }
            .fmt(f),
            Err(Declined::Plan(fault)) => Refusal::from(fault).fmt(f),
            Err(Declined::Engine(fault)) => Refusal::from(fault).fmt(f),
            Err(Declined::Barred) => write!(
                f,
                "not in this state: a draft is edited and fixed, a fixed plan is solved and reopened"
            ),
        }
    }
}
