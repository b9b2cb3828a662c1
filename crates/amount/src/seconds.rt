//! Measure 1: seconds in the usual order.
ghost use Rattle.amount.specs.Scales.{CanAdd, CanSub, CanNeg, CanMul, AddGives, SubGives, NegGives, MulGives, adds_so, subtracts_so, opposes_so, multiplies_so};
ghost use Rattle.amount.specs.Given.{seconds_scale};
ghost use Rattle.std.proofs.Common.{rules};

use crate::measure::{Measure, Scaled, in_span};
use std::ops::{Add, Mul, Neg, Sub};

/// Whole seconds; the greater number is the greater amount.
#[derive(Clone, Copy, PartialEq, Eq, PartialOrd, Ord, Debug)]
pub struct Seconds {
    pub seconds: i64,
}

impl Scaled for Seconds {
    ghost scale = { seconds_scale };
}

// One type over an array of places would say the operators once, but its places would lose their names.
impl Add for Seconds {
    type Output = Seconds;

    ghost can_add = { CanAdd seconds_scale };

    ghost add_gives = { AddGives seconds_scale };

    fn add(self, other: Seconds) -> Seconds {
        Seconds {
            seconds: self.seconds + other.seconds,
        }
    }
}

impl Sub for Seconds {
    type Output = Seconds;

    ghost can_sub = { CanSub seconds_scale };

    ghost sub_gives = { SubGives seconds_scale };

    fn sub(self, other: Seconds) -> Seconds {
        Seconds {
            seconds: self.seconds - other.seconds,
        }
    }
}

impl Neg for Seconds {
    type Output = Seconds;

    ghost can_neg = { CanNeg seconds_scale };

    ghost neg_gives = { NegGives seconds_scale };

    fn neg(self) -> Seconds {
        Seconds {
            seconds: -self.seconds,
        }
    }
}

impl Mul<u32> for Seconds {
    type Output = Seconds;

    ghost can_mul = { CanMul seconds_scale };

    ghost mul_gives = { MulGives seconds_scale };

    fn mul(self, k: u32) -> Seconds {
        Seconds {
            seconds: self.seconds * k as i64,
        }
    }
}

impl Measure for Seconds {
    fn zero() -> Seconds {
        Seconds { seconds: 0 }
    }

    fn first_outside(self) -> Option<u32> {
        if in_span(self.seconds) { None } else { Some(0) }
    }

    ghost adds = { adds_so seconds_scale };

    ghost subtracts = { subtracts_so seconds_scale };

    ghost opposes = { opposes_so seconds_scale };

    ghost multiplies = { multiplies_so seconds_scale };

    ghost compares = { Prim.search rules };
}
