//! The reader: it goes through the words of a file from the front, and stops at the first word at fault.
ghost use Rattle.std.specs.Prelude.{◌≡◌, ◌+◌, ◌<◌, ⊤, cond, false, pos, MatchResult};
ghost use Rattle.file.specs.Words.{kind_bits, words_of};
ghost use Rattle.file.specs.Words.{lower as lower_of};
ghost use Rattle.file.specs.Layout.{heading, item, place, reach, bad_count, fault_in};
ghost use Rattle.file.specs.Faults.{told};
ghost use Rattle.file.specs.Opening.{Opens, Refused};
ghost use Rattle.file.specs.Reading.{Tested, claims, role_of, AfterPlace, Goes, Going, Outlined};

use crate::fault::FileFault;
use crate::kind::Kind;
use crate::words::{WORD, Words};
use crate::{columns, words};
use amount::measure::SPAN;
use network::{MOST_EVENTS, MOST_WAITS};

// How far from zero a place of a claim may lie.
const CLAIM_SPAN: i64 = 86_400_000;

/// An item that has a row of places.
#[derive(Clone, Copy, PartialEq, Eq, Debug)]
pub(crate) enum Item {
    Wait,
    Claim,
}

impl Item {
    // How far from zero its places may lie.
    fn reach(self) -> i64
        ensures { result ≡ pos (reach (place (claims self))) }
    {
        match self {
            Item::Wait => SPAN,
            Item::Claim => CLAIM_SPAN,
        }
    }

    // What comes after a place of it, when so many are left with that one.
    fn after_place(self, left: usize) -> State
        ensures { AfterPlace self left result }
    {
        if left > 1 {
            return State::Row(self, left - 1);
        }
        match self {
            Item::Wait => State::Items,
            Item::Claim => State::Claimed,
        }
    }
}

/// What may come next.
#[derive(Clone, Copy, PartialEq, Eq, Debug)]
pub(crate) enum State {
    /// the heading
    Start,
    /// a wait, a claim or the closing word
    Items,
    /// a place of an item, one of so many that are left
    Row(Item, usize),
    /// the closing word
    Claimed,
    /// nothing
    Closed,
}

/// A word of a file, and its number.
#[derive(Clone, Copy)]
pub(crate) struct Word {
    pub(crate) at: usize,
    pub(crate) bits: u32,
}

impl Word {
    // The count in the low bits of a heading or a claim; no loop has more waits than a network has events.
    fn count(self) -> Result<u32, FileFault>
        ensures { Tested (cond (bad_count (lower_of self.bits)) 15 0) self.at (λ n. n ≡ lower_of self.bits) result }
    {
        let count = words::lower(self.bits);
        if (1..=MOST_EVENTS).contains(&count) {
            Ok(count)
        } else {
            Err(FileFault::BadCount(self.at))
        }
    }
}

/// How far the reader of a file for one measure has come.
#[derive(Clone, Copy)]
pub(crate) struct Reader {
    /// the measure's number, and how many places its rows have
    pub(crate) measure: u32,
    pub(crate) places: usize,
    pub(crate) state: State,
    pub(crate) events: u32,
    /// how many waits have begun
    pub(crate) waits: u32,
    /// the number of the claim's first word, if a claim has begun
    pub(crate) claim: Option<usize>,
}

impl Reader {
    // The event count of a heading.
    fn read_heading(self, word: Word) -> Result<u32, FileFault>
        requires { kind_bits word.bits ≡ 1 }
        ensures { Tested (fault_in self.measure self.events heading word.bits) word.at (λ n. n ≡ lower_of word.bits) result }
    {
        if words::middle(word.bits) != 0 {
            return Err(FileFault::Smudged(word.at));
        }
        if words::upper(word.bits) != self.measure {
            return Err(FileFault::ForeignMeasure(word.at));
        }
        word.count()
    }

    // How many waits there are with the one that a word begins.
    fn read_wait(self, word: Word) -> Result<u32, FileFault>
        requires { kind_bits word.bits ≡ 2 }
        ensures { Tested (fault_in self.measure self.events (item self.waits false) word.bits) word.at (λ n. n ≡ self.waits + 1) result }
    {
        if words::upper(word.bits) != 0 {
            return Err(FileFault::Smudged(word.at));
        }
        if self.waits >= MOST_WAITS {
            return Err(FileFault::Full(word.at));
        }
        if words::middle(word.bits) >= self.events || words::lower(word.bits) >= self.events {
            return Err(FileFault::UnknownEvent(word.at));
        }
        Ok(self.waits + 1)
    }

    // Tests the word that begins a claim.
    fn read_claim(self, word: Word) -> Result<(), FileFault>
        requires { kind_bits word.bits ≡ 4 }
        ensures { Tested (fault_in self.measure self.events (item self.waits false) word.bits) word.at (λ _. ⊤) result }
    {
        if words::field(word.bits, 12, 16) != 0 {
            return Err(FileFault::Smudged(word.at));
        }
        word.count()?;
        Ok(())
    }

    // Tests a place of an item.
    #[tactic(auto, using(crate::proofs::RightWords::place_within, crate::proofs::RightWords::place_beyond))]
    fn read_place(self, word: Word, of: Item) -> Result<(), FileFault>
        requires { kind_bits word.bits ≡ 3 }
        ensures { Tested (fault_in self.measure self.events (place (claims of)) word.bits) word.at (λ _. ⊤) result }
    {
        if words::place(word.bits).abs() > of.reach() {
            return Err(FileFault::OutOfSpan(word.at));
        }
        Ok(())
    }

    // One word more: the state and the word's kind decide together.
    fn step(self, word: Word) -> Result<Reader, FileFault>
        requires { Going self.state }
        ensures { Tested (fault_in self.measure self.events (role_of self.state self.waits) word.bits) word.at (Goes word self) result }
    {
        match (self.state, Kind::try_from(word.bits)) {
            (State::Start, Ok(Kind::Heading)) => {
                let events = self.read_heading(word)?;
                Ok(Reader {
                    state: State::Items,
                    events,
                    ..self
                })
            }
            (State::Items, Ok(Kind::Wait)) => {
                let waits = self.read_wait(word)?;
                Ok(Reader {
                    state: State::Row(Item::Wait, self.places),
                    waits,
                    ..self
                })
            }
            (State::Items, Ok(Kind::Claim)) => {
                self.read_claim(word)?;
                Ok(Reader {
                    state: State::Row(Item::Claim, self.places),
                    claim: Some(word.at),
                    ..self
                })
            }
            (State::Row(of, left), Ok(Kind::Place)) => {
                self.read_place(word, of)?;
                Ok(Reader {
                    state: of.after_place(left),
                    ..self
                })
            }
            (State::Items | State::Claimed, Ok(Kind::Closing)) => Ok(Reader {
                state: State::Closed,
                ..self
            }),
            _ => Err(FileFault::Stray(word.at)),
        }
    }
}

// Apart from the reader, whose state and measure are of no use once a file is read: a reader made of it would be no plainer.
/// What the reader found in a file that opens.
#[derive(Clone, Copy)]
pub(crate) struct Outline {
    pub(crate) events: u32,
    pub(crate) waits: u32,
    /// the number of the claim's first word, if the file has a claim
    pub(crate) claim: Option<usize>,
}

/// Reads the words of a file for the measure of this number, whose rows have so many places.
pub(crate) fn read(bytes: &[u8], measure: u32, places: usize) -> Result<Outline, FileFault>
    requires { 0 < places }
    ensures { MatchResult result (λ o. Opens measure places bytes.now × Outlined places (words_of bytes.now) o) (λ f. Refused measure places bytes.now (told f).number (told f).place) }
{
    let len = bytes.len();
    if len == 0 || !len.is_multiple_of(WORD) {
        return Err(FileFault::Torn(len));
    }
    let count = len / WORD;
    let mut reader = Reader {
        measure,
        places,
        state: State::Start,
        events: 0,
        waits: 0,
        claim: None,
    };
    for (at, bits) in Words(bytes).enumerate() {
        reader = reader.step(Word { at, bits })?;
        if reader.state == State::Closed {
            if at + 1 < count {
                return Err(FileFault::Trailed(at + 1));
            }
            if !columns::closes(&bytes[..WORD * at], bits) {
                return Err(FileFault::OffCheck(at));
            }
            return Ok(Outline {
                events: reader.events,
                waits: reader.waits,
                claim: reader.claim,
            });
        }
    }
    Err(FileFault::Unclosed(count))
}
