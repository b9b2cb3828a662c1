//! The kinds of words.
ghost use Rattle.file.specs.Kinds.{HasKind};

use crate::words::COLUMNS;

/// What a word is, by the number in its top four bits.
#[derive(Clone, Copy, PartialEq, Eq, Debug)]
pub(crate) enum Kind {
    Heading,
    Wait,
    Place,
    Claim,
    Closing,
}

/// The number stands for no kind.
#[derive(Clone, Copy, PartialEq, Eq, Debug)]
pub(crate) struct NoKind;

impl TryFrom<u32> for Kind {
    type Error = NoKind;

    ghost try_from_gives = { HasKind };

    fn try_from(word: u32) -> Result<Kind, NoKind> {
        match word >> COLUMNS {
            1 => Ok(Kind::Heading),
            2 => Ok(Kind::Wait),
            3 => Ok(Kind::Place),
            4 => Ok(Kind::Claim),
            5 => Ok(Kind::Closing),
            _ => Err(NoKind),
        }
    }
}
