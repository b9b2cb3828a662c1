//! Suppliers' files: opening the bytes of a file for one measure.

#![tactic(auto)]

ghost use Rattle.std.specs.Prelude.{◌≡◌};
ghost use Rattle.file.specs.Words.{words_of};
ghost use Rattle.file.specs.Contents.{contents, named_measure, meant, plain_claim};
ghost use Rattle.file.specs.Opening.{Answered, Decided};
ghost use Rattle.file.specs.Reading.{Outlined};

use crate::fault::FileFault;
use crate::opened::{Opened, amount_from};
use crate::reader::{Outline, read};
use crate::words::Words;
use amount::filed::Filed;
use network::{Network, Period};

mod columns;
pub mod fault;
mod kind;
pub mod opened;
mod reader;
mod words;

/// The measure that the first word names, if there is a word.
pub fn named_measure(bytes: &[u8]) -> Option<u32>
    ensures { result ≡ named_measure (words_of bytes.now) }
{
    Words(bytes).next().map(words::upper)
}

// The claim of a file that opens: its last item, if that is one.
fn claim_of<X: Filed>(bytes: &[u8], outline: Outline) -> Option<Period<X>>
    requires { Outlined X.scale.places (words_of bytes.now) outline }
    ensures { plain_claim X.scale result ≡ (contents X.scale.places (words_of bytes.now)).claim }
{
    let at = outline.claim?;
    Some(Period {
        total: amount_from(bytes, at + 1, X::PLACES),
        count: words::lower(words::word(bytes, at)),
    })
}

/// Opens the bytes for the measure X: an opened file stands for just what the words spell, and a fault names the first word
/// that is not as the layout wants it.
#[tactic(auto, using(crate::proofs::Deciding::decided))]
pub fn open<'a, X: Filed>(bytes: &'a [u8]) -> Result<Opened<'a, X>, FileFault>
    ensures answered { Answered X.NUMBER X.scale.places bytes.now (λ o. meant (⟦<Opened<'a, X> as Network<X>>⟧.graph o) (plain_claim X.scale o.claim)) result }
    ensures decided { Decided X.NUMBER X.scale.places bytes.now }
{
    let outline = read(bytes, X::NUMBER, X::PLACES)?;
    let claim = claim_of(bytes, outline);
    Ok(Opened {
        bytes,
        events: outline.events,
        waits: outline.waits,
        places: X::PLACES,
        claim,
    })
}
