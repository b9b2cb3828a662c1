//! A measure: amounts that stand for rows of whole numbers, added place by place, in a total order.
ghost use Rattle.std.specs.Prelude.{◌≡◌, pos, neg_ℤ, ◌≤ℤ◌, Decides};
ghost use Rattle.amount.specs.Rows.{zero_row};
ghost use Rattle.amount.specs.Scales.{Scale, Adds, Subtracts, Opposes, Multiplies, Compares};
ghost use Rattle.amount.specs.Spans.{span, first_outside};

use std::ops::{Add, Mul, Neg, Sub};

/// How far from zero a place of a wait's amount may lie.
pub const SPAN: i64 = 86_400;

/// Whether a place lies in the span.
pub(crate) fn in_span(place: i64) -> bool
    ensures { Decides result ((neg_ℤ (pos span) ≤ℤ place) × (place ≤ℤ pos span)) }
{
    (-SPAN..=SPAN).contains(&place)
}

/// Amounts that have a meaning.
pub trait Scaled {
    // the row that each amount stands for, and the order of rows
    ghost scale: { Scale Self };
}

/// A measure: amounts are added, subtracted, turned to their opposite and taken 0 to 1,000 times, exactly where all places of
/// the result lie within 10^12 of zero; and their order is that of the rows.
pub trait Measure: Scaled
    + Copy
    + Ord
    + Add<Output = Self>
    + Sub<Output = Self>
    + Neg<Output = Self>
    + Mul<u32, Output = Self> {
    /// The amount of the row of zeros.
    fn zero() -> Self
        ensures { Self.scale.row result ≡ zero_row Self.scale.places };

    /// The number, from 0, of the first place that lies outside the span of a wait.
    fn first_outside(self) -> Option<u32>
        ensures { result ≡ first_outside Self.scale self };

    // what the operators and the order owe
    ghost adds: { Adds Self.scale Self.can_add Self.add_gives };

    ghost subtracts: { Subtracts Self.scale Self.can_sub Self.sub_gives };

    ghost opposes: { Opposes Self.scale Self.can_neg Self.neg_gives };

    ghost multiplies: { Multiplies Self.scale Self.can_mul Self.mul_gives };

    ghost compares: { Compares Self.scale Self.cmp };
}
