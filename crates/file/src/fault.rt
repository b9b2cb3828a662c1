//! Why a file does not open.
ghost use Rattle.std.specs.Prelude.{◌≡◌};
ghost use Rattle.file.specs.Faults.{told};

use refusal::{Layer, Refusal};

/// Why the bytes of a file do not open. Each fault holds its place: the byte count, the word count, or the number of a word.
#[derive(Clone, Copy, PartialEq, Eq, Debug)]
pub enum FileFault {
    /// the byte count is zero or no multiple of four
    Torn(usize),
    /// the word's kind is not allowed there
    Stray(usize),
    /// a bit due to be zero is not
    Smudged(usize),
    /// there is no closing word
    Unclosed(usize),
    /// words follow the closing word
    Trailed(usize),
    /// the columns of the closing word disagree
    OffCheck(usize),
    /// the heading names another measure
    ForeignMeasure(usize),
    /// a wait starts or ends at no event
    UnknownEvent(usize),
    /// a place lies beyond its range
    OutOfSpan(usize),
    /// there is one wait too many
    Full(usize),
    /// an event count or a claim's count is out of range
    BadCount(usize),
}

/// What a person is told of a fault.
impl From<FileFault> for Refusal {
    ghost from_gives = { λ fault refusal. refusal ≡ told fault };

    fn from(fault: FileFault) -> Refusal {
        // the numbers are those that people are told, and stay
        let (number, place) = match fault {
            FileFault::Torn(at) => (1, at),
            FileFault::Stray(at) => (2, at),
            FileFault::Smudged(at) => (3, at),
            FileFault::Unclosed(at) => (4, at),
            FileFault::Trailed(at) => (5, at),
            FileFault::OffCheck(at) => (6, at),
            FileFault::ForeignMeasure(at) => (7, at),
            FileFault::UnknownEvent(at) => (8, at),
            FileFault::OutOfSpan(at) => (9, at),
            FileFault::Full(at) => (10, at),
            FileFault::BadCount(at) => (15, at),
        };
        Refusal {
            number,
            layer: Layer::File,
            place: place as u64,
        }
    }
}
