//! Refusals: what a person or a program is told when something is declined.

#![tactic(auto)]

ghost use Rattle.std.specs.Prelude.{◌≡◌, ◌≤◌, length, Some};
ghost use Rattle.refusal.specs.Texts.{layer_word, refusal_text};

use std::error::Error;
use std::fmt;

/// The layer that declines. It is printed as one word in small letters.
#[derive(Clone, Copy, PartialEq, Eq, Debug)]
pub enum Layer {
    File,
    Plan,
    Engine,
    Report,
}

impl Layer {
    /// Its word, of at most six letters.
    pub fn word(self) -> &'static str
        ensures word { result.now ≡ layer_word self }
        ensures short { length result.now ≤ 6 }
    {
        match self {
            Layer::File => "file",
            Layer::Plan => "plan",
            Layer::Engine => "engine",
            Layer::Report => "report",
        }
    }
}

impl fmt::Display for Layer {
    ghost output = { λ layer. Some (layer_word layer) };

    fn fmt<W: fmt::Write>(&self, f: &mut fmt::Formatter<W>) -> fmt::Result {
        write!(f, "{}", self.word())
    }
}

/// A refusal: its number, the layer that declines, and the place. It is printed as `refused NUMBER LAYER PLACE`.
#[derive(Clone, Copy, PartialEq, Eq, Debug)]
pub struct Refusal {
    pub number: u32,
    pub layer: Layer,
    pub place: u64,
}

impl fmt::Display for Refusal {
    ghost output = { λ refusal. Some (refusal_text refusal) };

    fn fmt<W: fmt::Write>(&self, f: &mut fmt::Formatter<W>) -> fmt::Result {
        write!(f, "refused {} {} {}", self.number, self.layer, self.place)
    }
}

impl Error for Refusal {}
