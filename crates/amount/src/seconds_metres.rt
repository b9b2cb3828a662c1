//! Measure 2: seconds, then metres driven; the metres decide where the seconds are equal.
ghost use Rattle.amount.specs.Scales.{CanAdd, CanSub, CanNeg, CanMul, AddGives, SubGives, NegGives, MulGives, adds_so, subtracts_so, opposes_so, multiplies_so};
ghost use Rattle.amount.specs.Given.{seconds_metres_scale};
ghost use Rattle.std.proofs.Common.{rules};

use crate::measure::{Measure, Scaled, in_span};
use std::ops::{Add, Mul, Neg, Sub};

/// Whole seconds, and whole metres driven.
#[derive(Clone, Copy, PartialEq, Eq, PartialOrd, Ord, Debug)]
pub struct SecondsMetres {
    pub seconds: i64,
    pub metres: i64,
}

impl Scaled for SecondsMetres {
    ghost scale = { seconds_metres_scale };
}

// One type over an array of places would say the operators once, but its places would lose their names.
impl Add for SecondsMetres {
    type Output = SecondsMetres;

    ghost can_add = { CanAdd seconds_metres_scale };

    ghost add_gives = { AddGives seconds_metres_scale };

    fn add(self, other: SecondsMetres) -> SecondsMetres {
        SecondsMetres {
            seconds: self.seconds + other.seconds,
            metres: self.metres + other.metres,
        }
    }
}

impl Sub for SecondsMetres {
    type Output = SecondsMetres;

    ghost can_sub = { CanSub seconds_metres_scale };

    ghost sub_gives = { SubGives seconds_metres_scale };

    fn sub(self, other: SecondsMetres) -> SecondsMetres {
        SecondsMetres {
            seconds: self.seconds - other.seconds,
            metres: self.metres - other.metres,
        }
    }
}

impl Neg for SecondsMetres {
    type Output = SecondsMetres;

    ghost can_neg = { CanNeg seconds_metres_scale };

    ghost neg_gives = { NegGives seconds_metres_scale };

    fn neg(self) -> SecondsMetres {
        SecondsMetres {
            seconds: -self.seconds,
            metres: -self.metres,
        }
    }
}

impl Mul<u32> for SecondsMetres {
    type Output = SecondsMetres;

    ghost can_mul = { CanMul seconds_metres_scale };

    ghost mul_gives = { MulGives seconds_metres_scale };

    fn mul(self, k: u32) -> SecondsMetres {
        SecondsMetres {
            seconds: self.seconds * k as i64,
            metres: self.metres * k as i64,
        }
    }
}

impl Measure for SecondsMetres {
    fn zero() -> SecondsMetres {
        SecondsMetres {
            seconds: 0,
            metres: 0,
        }
    }

    fn first_outside(self) -> Option<u32> {
        if !in_span(self.seconds) {
            Some(0)
        } else if !in_span(self.metres) {
            Some(1)
        } else {
            None
        }
    }

    ghost adds = { adds_so seconds_metres_scale };

    ghost subtracts = { subtracts_so seconds_metres_scale };

    ghost opposes = { opposes_so seconds_metres_scale };

    ghost multiplies = { multiplies_so seconds_metres_scale };

    ghost compares = { Prim.search rules };
}
