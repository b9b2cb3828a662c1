//! Small networks drawn by a linear congruence, so that every run tries the same ones.
use crate::listing::{Pair, SmallWait};

// The benchmark has its own: a crate for these nine lines is no plainer.
#[derive(Drop)]
pub(crate) struct Draw {
    state: u64,
}

impl Draw {
    pub(crate) fn new(seed: u64) -> Draw {
        Draw { state: seed }
    }

    // The next number below `limit`, or 0 where that is 0.
    pub(crate) fn below(&mut self, limit: u32) -> u32 {
        self.state = self
            .state
            .wrapping_mul(6_364_136_223_846_793_005)
            .wrapping_add(1_442_695_040_888_963_407);
        let high = (self.state >> 33) as u32;
        if limit == 0 { 0 } else { high % limit }
    }

    // A whole number within `reach` of zero.
    pub(crate) fn around(&mut self, reach: u32) -> i64 {
        i64::from(self.below(reach.saturating_mul(2).saturating_add(1))) - i64::from(reach)
    }

    // A wait between two of n events, with small amounts so that equal means are common.
    pub(crate) fn wait(&mut self, n: u32) -> SmallWait {
        let reach = if self.below(4) == 0 { 86_400 } else { 6 };
        SmallWait {
            start: self.below(n),
            end: self.below(n),
            amount: Pair {
                first: self.around(reach),
                second: self.around(reach),
            },
        }
    }
}
