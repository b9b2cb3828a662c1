//! Why the report declines.
ghost use Rattle.std.specs.Prelude.{◌≡◌};
ghost use Rattle.report.specs.Reported.{too_big};

use refusal::{Layer, Refusal};

/// The file, or its network, is too big: the most bytes that a file has, or how many events there are.
#[derive(Clone, Copy, PartialEq, Eq, Debug)]
pub(crate) struct TooBig(pub(crate) u64);

impl From<TooBig> for Refusal {
    ghost from_gives = { λ fault refusal. refusal ≡ too_big fault.0 };

    fn from(fault: TooBig) -> Refusal {
        Refusal {
            // the number is the one that people are told, and stays
            number: 14,
            layer: Layer::Report,
            place: fault.0,
        }
    }
}
