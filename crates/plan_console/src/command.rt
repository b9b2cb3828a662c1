//! The commands that a planner types, one a line.

use amount::filed::{Filed, FiledMeasure, MOST_PLACES};
use arrayvec::ArrayVec;
use network::Wait;
use plan::calls::Call;
use std::num::ParseIntError;
use std::str;
use std::str::SplitWhitespace;
use thiserror::Error;

// What cannot be read in a line.
#[derive(Debug, Drop, Error)]
pub(crate) enum Unreadable {
    #[error("it is no text")]
    NotText,
    #[error("there is no such call")]
    NoSuchCall,
    #[error("a plan is opened first, by plan MEASURE EVENTS")]
    NoPlanYet,
    #[error("the measure is 1, 2 or 3")]
    NoSuchMeasure,
    #[error("a word is missing")]
    WordMissing,
    #[error("there is a word too many")]
    WordTooMany,
    #[error("a number is due")]
    NotANumber(#[from] ParseIntError),
    #[error("the amount has another number of places")]
    OtherPlaces,
}

// The words of a line that are still to be read.
#[derive(Drop)]
struct Words<'l>(SplitWhitespace<'l>);

impl<'l> Words<'l> {
    fn word(&mut self) -> Result<&'l str, Unreadable> {
        self.0.next().ok_or(Unreadable::WordMissing)
    }

    fn number(&mut self) -> Result<u32, Unreadable> {
        Ok(self.word()?.parse::<u32>()?)
    }

    // An amount: its places joined by commas.
    fn amount<X: Filed>(&mut self) -> Result<X, Unreadable> {
        let mut places = ArrayVec::<i64, MOST_PLACES>::new();
        for place in self.word()?.split(',') {
            if places.is_full() {
                return Err(Unreadable::OtherPlaces);
            }
            places.push(place.parse::<i64>()?);
        }
        if places.len() != X::PLACES {
            return Err(Unreadable::OtherPlaces);
        }
        Ok(X::from_places(places.as_slice()))
    }

    fn wait<X: Filed>(&mut self) -> Result<Wait<X>, Unreadable> {
        Ok(Wait {
            start: self.number()?,
            end: self.number()?,
            amount: self.amount()?,
        })
    }

    fn end(&mut self) -> Result<(), Unreadable> {
        match self.0.next() {
            Some(_) => Err(Unreadable::WordTooMany),
            None => Ok(()),
        }
    }
}

// The command that opens a plan: its measure and its event count.
#[derive(Clone, Copy, Debug)]
pub(crate) struct Opening {
    pub(crate) measure: FiledMeasure,
    pub(crate) events: u32,
}

impl<'l> TryFrom<&'l str> for Opening {
    type Error = Unreadable;

    fn try_from(line: &'l str) -> Result<Opening, Unreadable> {
        let mut words = Words(line.split_whitespace());
        if words.word()? != "plan" {
            return Err(Unreadable::NoPlanYet);
        }
        let measure = FiledMeasure::try_from(words.number()?).map_err(
            |_| Unreadable::NoSuchMeasure,
        )?;
        let events = words.number()?;
        words.end()?;
        Ok(Opening { measure, events })
    }
}

// What is asked of an open plan: a call, or to take in a file, which a line names and a plan is given the bytes of. A file's
// name has no blank in it.
#[derive(Drop)]
pub(crate) enum Command<X, F> {
    Make(Call<X>),
    TakeIn(F),
}

impl<'l, X: Filed> TryFrom<&'l str> for Command<X, &'l str> {
    type Error = Unreadable;

    fn try_from(line: &'l str) -> Result<Command<X, &'l str>, Unreadable> {
        let mut words = Words(line.split_whitespace());
        let command = match words.word()? {
            "put" => Command::Make(Call::Put(words.wait()?)),
            "retime" => Command::Make(Call::Retime(words.number()?, words.amount()?)),
            "drop" => Command::Make(Call::DropWait(words.number()?)),
            "fix" => Command::Make(Call::Fix),
            "reopen" => Command::Make(Call::Reopen),
            "solve" => Command::Make(Call::Solve),
            "take" => Command::TakeIn(words.word()?),
            _ => return Err(Unreadable::NoSuchCall),
        };
        words.end()?;
        Ok(command)
    }
}

// The command that a line spells; None if the line is blank.
pub(crate) fn read<'l, C: TryFrom<&'l str, Error = Unreadable>>(
    line: &'l [u8],
) -> Result<Option<C>, Unreadable> {
    // blanks in front are passed once, and those behind when the words end
    let text = str::from_utf8(line)
        .map_err(|_| Unreadable::NotText)?
        .trim_start();
    if text.is_empty() {
        return Ok(None);
    }
    Ok(Some(C::try_from(text)?))
}
