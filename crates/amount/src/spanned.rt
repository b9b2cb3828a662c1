//! Amounts in the span of a wait.
ghost use Rattle.std.specs.Prelude.{◌≡◌, ⊤, None, Some, MatchResult};
ghost use Rattle.amount.specs.Rows.{zero_row};
ghost use Rattle.amount.specs.Spans.{InSpan, first_outside, within_prop};

use crate::measure::{Measure, Scaled};
use std::alloc::AllocError;

/// An amount whose places all lie from -86,400 to 86,400.
#[derive(Debug)]
pub struct Spanned<X: Scaled> {
    amount: X,
    ghost near: { InSpan X.scale amount } by { Prim.hlevel within_prop },
}

/// Why an amount is none in the span: the number, from 0, of its first place outside.
#[derive(Clone, Copy, PartialEq, Eq, Debug)]
pub struct OutOfSpan(pub u32);

impl<X: Measure> Spanned<X> {
    /// This amount, if it lies in the span.
    pub fn new(amount: X) -> Result<Spanned<X>, OutOfSpan>
        ensures { MatchResult result (λ s. (s.amount ≡ amount) × (first_outside X.scale amount ≡ None)) (λ e. first_outside X.scale amount ≡ Some e.0) }
    {
        match amount.first_outside() {
            None => Ok(Spanned { amount }),
            Some(place) => Err(OutOfSpan(place)),
        }
    }
}

/// The amount of the row of zeros.
impl<X: Measure> Default for Spanned<X> {
    ghost is_default = { λ s. X.scale.row s.amount ≡ zero_row X.scale.places };

    fn default() -> Spanned<X> {
        Spanned { amount: X::zero() }
    }
}

impl<X: Scaled + Copy> Spanned<X> {
    /// The amount itself.
    pub fn amount(self) -> X
        ensures is { result ≡ self.amount }
        ensures near { InSpan X.scale result }
    {
        self.amount
    }
}

// By hand: of a generic struct with a ghost field `Clone` is not derived.
impl<X: Scaled + Copy> Clone for Spanned<X> {
    ghost is_clone = { λ amount copy. copy ≡ amount };

    ghost is_infallible = { λ _. ⊤ };

    fn clone(&self) -> Result<Spanned<X>, AllocError> {
        Ok(*self)
    }
}

impl<X: Scaled + Copy> Copy for Spanned<X> {}
