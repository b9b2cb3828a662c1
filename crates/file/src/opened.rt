//! An opened file: the lent bytes, and what they spell as a network.
ghost use Rattle.std.specs.Prelude.{◌≡◌, ℕ, ◌+◌, ◌*◌, ◌≤◌, length};
ghost use Rattle.amount.specs.Rows.{places as listed, row_of};
ghost use Rattle.network.specs.Networks.{graph, Owed};
ghost use Rattle.file.specs.Words.{words_of};
ghost use Rattle.file.specs.Contents.{places_from, fitted_waits};
ghost use Rattle.file.specs.Soundness.{owed_prop};

use crate::words;
use amount::filed::{Filed, MOST_PLACES};
use network::{Network, Period, Wait};

/// A file opened for the measure X.
#[derive(Debug, Drop)]
pub struct Opened<'a, X> {
    pub(crate) bytes: &'a [u8],
    pub(crate) events: u32,
    pub(crate) waits: u32,
    // how many places each wait has: the facts below speak of this number, so that the struct asks nothing of X
    pub(crate) places: usize,
    pub(crate) claim: Option<Period<X>>,
    ghost small: { places ≤ 4 },
    ghost owed: { (D : ℕ) → Owed (graph events (fitted_waits D places (words_of bytes.now) waits)) } by { Prim.hlevel owed_prop },
    ghost room: { 4 * (1 + waits * (1 + places)) ≤ length bytes.now },
}

impl<'a, X: Copy> Opened<'a, X> {
    /// The claim, if the file has one.
    pub fn claim(&self) -> Option<Period<X>>
        ensures { result ≡ self.now.claim }
    {
        self.claim
    }
}

// The amount in so many places from word k on, fitted to the measure's number of places.
pub(crate) fn amount_from<X: Filed>(bytes: &[u8], k: usize, count: usize) -> X
    requires { 4 * (k + count) ≤ length bytes.now }
    ensures { listed X.scale.places (X.scale.row result) ≡ listed X.scale.places (row_of X.scale.places (places_from count (words_of bytes.now) k)) }
{
    // a local array, cut to the measure's places: an `ArrayVec` would be made of one and cut as well, and is no plainer
    let mut places = [0i64; MOST_PLACES];
    let places = &mut places[..X::PLACES];
    for (p, place) in places.iter_mut().enumerate() {
        *place = if p < count {
            words::place(words::word(bytes, k + p))
        } else {
            0
        };
    }
    X::from_places(places)
}

impl<'a, X: Filed> Network<X> for Opened<'a, X> {
    ghost graph = { λ s. graph s.events (fitted_waits X.scale.places s.places (words_of s.bytes.now) s.waits) };

    ghost owed = { λ s. s.owed X.scale.places };

    fn event_count(&self) -> u32 {
        self.events
    }

    #[tactic(auto, using(crate::proofs::Fitted::fitted_length))]
    fn wait_count(&self) -> u32 {
        self.waits
    }

    fn wait(&self, i: u32) -> Wait<X> {
        let at = 1 + i as usize * (1 + self.places);
        let w = words::word(self.bytes, at);
        Wait {
            start: words::middle(w),
            end: words::lower(w),
            amount: amount_from(self.bytes, at + 1, self.places),
        }
    }
}
