//! A listing of every loop and every short walk of a small network, written without the engine: by trying all of them.

use std::ops::{Add, Mul, Sub};

// A wait with up to two places; the second is 0 in measures of one.
#[derive(Clone, Copy)]
pub(crate) struct SmallWait {
    pub start: u32,
    pub end: u32,
    pub amount: Pair,
}

// Two places; the order of `SecondsMetres` is theirs.
#[derive(Clone, Copy, PartialEq, Eq, PartialOrd, Ord, Debug, Default)]
pub(crate) struct Pair {
    pub first: i64,
    pub second: i64,
}

impl Add for Pair {
    type Output = Pair;

    fn add(self, other: Pair) -> Pair {
        Pair {
            first: self.first.wrapping_add(other.first),
            second: self.second.wrapping_add(other.second),
        }
    }
}

impl Sub for Pair {
    type Output = Pair;

    fn sub(self, other: Pair) -> Pair {
        Pair {
            first: self.first.wrapping_sub(other.first),
            second: self.second.wrapping_sub(other.second),
        }
    }
}

impl Mul<u32> for Pair {
    type Output = Pair;

    fn mul(self, k: u32) -> Pair {
        let k = i64::from(k);
        Pair {
            first: self.first.wrapping_mul(k),
            second: self.second.wrapping_mul(k),
        }
    }
}

// The order of a measure, by its number in a file.
#[derive(Clone, Copy, PartialEq, Eq, Debug)]
pub(crate) enum Order {
    Seconds,
    SecondsMetres,
    Reversed,
}

impl Order {
    pub(crate) fn below(self, a: Pair, b: Pair) -> bool {
        match self {
            Order::Seconds => a.first < b.first,
            Order::SecondsMetres => a < b,
            Order::Reversed => b.first < a.first,
        }
    }
}

// A total over a count.
#[derive(Clone, Copy, PartialEq, Eq, Debug, Default)]
pub(crate) struct Mean {
    pub total: Pair,
    pub count: u32,
}

impl Mean {
    // The mean of a walk that goes on by a wait.
    fn and(self, w: &SmallWait) -> Mean {
        Mean {
            total: self.total + w.amount,
            count: self.count.wrapping_add(1),
        }
    }

    // Whether this mean is below another, by cross-multiplication.
    pub(crate) fn below(self, other: Mean, order: Order) -> bool {
        order.below(self.total * other.count, other.total * self.count)
    }
}

// A walk under way from its start, whose visited events are the bits of `seen`.
#[derive(Clone, Copy)]
struct Path {
    start: u32,
    at: u32,
    seen: u32,
    so_far: Mean,
}

// A network of a few events, and the order of its measure.
#[derive(Clone, Copy)]
pub(crate) struct SmallNetwork<'a> {
    pub events: u32,
    pub waits: &'a [SmallWait],
    pub order: Order,
}

impl SmallNetwork<'_> {
    // Tries every way to go on from a path back to its start through events not yet visited and above the start, and keeps
    // the greatest mean; at most `left` waits more.
    fn close_loops(self, path: Path, left: u32, best: &mut Option<Mean>) {
        if left == 0 {
            return;
        }
        for w in self.waits.iter().filter(|w| w.start == path.at) {
            let so_far = path.so_far.and(w);
            if w.end == path.start {
                if best.is_none_or(|held| held.below(so_far, self.order)) {
                    *best = Some(so_far);
                }
            } else if w.end > path.start && w.end < 32 && path.seen & (1u32 << w.end) == 0 {
                let longer = Path {
                    start: path.start,
                    at: w.end,
                    seen: path.seen | (1u32 << w.end),
                    so_far,
                };
                self.close_loops(longer, left - 1, best);
            }
        }
    }

    // The greatest mean of all loops, if there is a loop.
    pub(crate) fn greatest_mean(self) -> Option<Mean> {
        let mut best = None;
        for start in 0..self.events.min(32) {
            let path = Path {
                start,
                at: start,
                seen: 1u32 << start,
                so_far: Mean::default(),
            };
            self.close_loops(path, self.events.min(32), &mut best);
        }
        best
    }

    // Follows every walk that goes on from an event for at most `left` waits more, and keeps at each event the greatest of
    // count × total − waits × total of the period.
    fn follow_walks(self, period: Mean, at: u32, so_far: Mean, left: u32, latest: &mut [Pair]) {
        let gives = so_far.total * period.count - period.total * so_far.count;
        if let Some(held) = latest.get_mut(at as usize) {
            if self.order.below(*held, gives) {
                *held = gives;
            }
        }
        if left == 0 {
            return;
        }
        for w in self.waits.iter().filter(|w| w.start == at) {
            self.follow_walks(period, w.end, so_far.and(w), left - 1, latest);
        }
    }

    // What all walks of at most as many waits as there are events give each event at a period, the walk of no waits giving
    // zero. At the greatest mean longer walks give no more: a walk of more waits turns round somewhere, and no turn gains.
    pub(crate) fn latest_departures(self, period: Mean, latest: &mut [Pair]) {
        latest.fill(Pair::default());
        for v in 0..self.events {
            self.follow_walks(period, v, Mean::default(), self.events, latest);
        }
    }
}
