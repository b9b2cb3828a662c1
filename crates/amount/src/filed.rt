//! Measures that a supplier's file can hold.
ghost use Rattle.std.specs.Prelude.{◌≡◌, ℕ, ◌≤◌, length, refl};
ghost use Rattle.amount.specs.Measures.{Numbered};
ghost use Rattle.amount.specs.Rows.{places as listed};
ghost use Rattle.std.proofs.Common.{rules};

use crate::measure::Measure;
use crate::reversed::{Reversed, ReversedSeconds};
use crate::seconds::Seconds;
use crate::seconds_metres::SecondsMetres;
use std::cmp::Reverse;

/// The most places that an amount's row has.
pub const MOST_PLACES: usize = 4;

/// A measure with a number of its own, 1 to 3, in a file's heading; a file holds an amount as the places of its row.
pub trait Filed: Measure {
    /// The measure's number in a file.
    const NUMBER: u32;

    ghost NUMBER: { ℕ };

    /// How many places an amount's row has.
    const PLACES: usize;

    ghost PLACES: { ℕ };

    /// The amount that stands for the row of these places.
    fn from_places(places: &[i64]) -> Self
        requires { length places.now ≡ Self.scale.places }
        ensures { listed Self.scale.places (Self.scale.row result) ≡ places.now };

    /// Writes the places of this amount's row.
    fn to_places(self, places: &mut [i64])
        requires { length places.old ≡ Self.scale.places }
        ensures { places.new ≡ listed Self.scale.places (Self.scale.row self) };

    // what the two constants owe
    ghost placed: { PLACES ≡ Self.scale.places };

    ghost known: { (1 ≤ NUMBER) × (NUMBER ≤ 3) };
}

impl Filed for Seconds {
    const NUMBER: u32 = 1;

    ghost NUMBER = { 1 };

    const PLACES: usize = 1;

    ghost PLACES = { 1 };

    ghost placed = { refl };

    ghost known = { Prim.search rules };

    fn from_places(places: &[i64]) -> Seconds {
        Seconds { seconds: places[0] }
    }

    fn to_places(self, places: &mut [i64]) {
        places.copy_from_slice(&[self.seconds]);
    }
}

impl Filed for SecondsMetres {
    const NUMBER: u32 = 2;

    ghost NUMBER = { 2 };

    const PLACES: usize = 2;

    ghost PLACES = { 2 };

    ghost placed = { refl };

    ghost known = { Prim.search rules };

    fn from_places(places: &[i64]) -> SecondsMetres {
        SecondsMetres {
            seconds: places[0],
            metres: places[1],
        }
    }

    fn to_places(self, places: &mut [i64]) {
        places.copy_from_slice(&[self.seconds, self.metres]);
    }
}

impl Filed for ReversedSeconds {
    const NUMBER: u32 = 3;

    ghost NUMBER = { 3 };

    const PLACES: usize = 1;

    ghost PLACES = { 1 };

    ghost placed = { refl };

    ghost known = { Prim.search rules };

    fn from_places(places: &[i64]) -> ReversedSeconds {
        Reversed(Reverse(Seconds::from_places(places)))
    }

    fn to_places(self, places: &mut [i64]) {
        self.0.0.to_places(places);
    }
}

/// The measures that a file's heading can name.
#[derive(Clone, Copy, PartialEq, Eq, Debug)]
pub enum FiledMeasure {
    Seconds,
    SecondsMetres,
    ReversedSeconds,
}

/// No measure has this number.
#[derive(Clone, Copy, PartialEq, Eq, Debug)]
pub struct UnknownMeasure(pub u32);

/// The measure of a number: 1, 2 and 3 in this order.
impl TryFrom<u32> for FiledMeasure {
    type Error = UnknownMeasure;

    ghost try_from_gives = { Numbered };

    fn try_from(number: u32) -> Result<FiledMeasure, UnknownMeasure> {
        match number {
            Seconds::NUMBER => Ok(FiledMeasure::Seconds),
            SecondsMetres::NUMBER => Ok(FiledMeasure::SecondsMetres),
            ReversedSeconds::NUMBER => Ok(FiledMeasure::ReversedSeconds),
            _ => Err(UnknownMeasure(number)),
        }
    }
}
