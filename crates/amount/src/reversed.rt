//! Measures in opposite order.
ghost use Rattle.amount.specs.Scales.{reversed, Adds};
ghost use Rattle.std.proofs.Common.{rules};

use crate::measure::{Measure, Scaled};
use crate::seconds::Seconds;
use std::cmp::Reverse;
use std::ops::{Add, Mul, Neg, Sub};

/// An amount of the measure `M` in opposite order: what is greater there is less here.
#[derive(Clone, Copy, PartialEq, Eq, PartialOrd, Ord, Debug)]
pub struct Reversed<M>(pub Reverse<M>);

/// Measure 3: seconds in opposite order, so that the greatest mean is the smallest number.
pub type ReversedSeconds = Reversed<Seconds>;

impl<M: Scaled> Scaled for Reversed<M> {
    ghost scale = { reversed M.scale (λ x. x.0.0) };
}

impl<M: Measure> Add for Reversed<M> {
    type Output = Reversed<M>;

    ghost can_add = { λ a b. M.can_add a.0.0 b.0.0 };

    ghost add_gives = { λ a b r. M.add_gives a.0.0 b.0.0 r.0.0 };

    fn add(self, other: Reversed<M>) -> Reversed<M> {
        Reversed(Reverse(self.0.0 + other.0.0))
    }
}

impl<M: Measure> Sub for Reversed<M> {
    type Output = Reversed<M>;

    ghost can_sub = { λ a b. M.can_sub a.0.0 b.0.0 };

    ghost sub_gives = { λ a b r. M.sub_gives a.0.0 b.0.0 r.0.0 };

    fn sub(self, other: Reversed<M>) -> Reversed<M> {
        Reversed(Reverse(self.0.0 - other.0.0))
    }
}

impl<M: Measure> Neg for Reversed<M> {
    type Output = Reversed<M>;

    ghost can_neg = { λ a. M.can_neg a.0.0 };

    ghost neg_gives = { λ a r. M.neg_gives a.0.0 r.0.0 };

    fn neg(self) -> Reversed<M> {
        Reversed(Reverse(-self.0.0))
    }
}

impl<M: Measure> Mul<u32> for Reversed<M> {
    type Output = Reversed<M>;

    ghost can_mul = { λ a k. M.can_mul a.0.0 k };

    ghost mul_gives = { λ a k r. M.mul_gives a.0.0 k r.0.0 };

    fn mul(self, k: u32) -> Reversed<M> {
        Reversed(Reverse(self.0.0 * k))
    }
}

impl<M: Measure> Measure for Reversed<M> {
    fn zero() -> Reversed<M> {
        Reversed(Reverse(M::zero()))
    }

    fn first_outside(self) -> Option<u32> {
        self.0.0.first_outside()
    }

    ghost adds = { record { can = λ a b h. M.adds.can a.0.0 b.0.0 h; gives = λ a b r h. M.adds.gives a.0.0 b.0.0 r.0.0 h } };

    ghost subtracts = { record { can = λ a b h. M.subtracts.can a.0.0 b.0.0 h; gives = λ a b r h. M.subtracts.gives a.0.0 b.0.0 r.0.0 h } };

    ghost opposes = { record { can = λ a h. M.opposes.can a.0.0 h; gives = λ a r h. M.opposes.gives a.0.0 r.0.0 h } };

    ghost multiplies = { record { can = λ a k h. M.multiplies.can a.0.0 k h; gives = λ a k r h. M.multiplies.gives a.0.0 k r.0.0 h } };

    ghost compares = { λ a b. M.compares b.0.0 a.0.0 };
}
