//! The measures in which a report is printed, and the report in one of them.
ghost use Rattle.std.specs.Prelude.{◌≡◌, ◌*◌, ◌<◌, ◌≤◌, ◌^◌, ◌==◌, [], Bool, true, false, not, refl};
ghost use Rattle.std.specs.Mem.{type_size};
ghost use Rattle.std.proofs.Common.{rules};
ghost use Rattle.file.specs.Words.{words_of};
ghost use Rattle.file.specs.Contents.{named_measure};
ghost use Rattle.report.specs.Reported.{measure_of, MeasuredText, OpenedText, text_of};

use crate::telling::{MOST_EVENTS, tell_network};
use crate::text::Page;
use amount::filed::{Filed, FiledMeasure};
use amount::measure::Measure;
use amount::reversed::ReversedSeconds;
use amount::seconds::Seconds;
use amount::seconds_metres::SecondsMetres;
use engine::Workspace;
use file::{named_measure, open};
use refusal::Refusal;

/// A measure that a report can be printed in.
pub(crate) trait Printed: Filed {
    /// Whether the report shows a headway.
    const SHOWS_HEADWAY: bool;

    ghost SHOWS_HEADWAY: { Bool };

    // its amounts have at most two places, and seconds in opposite order show no headway
    ghost narrow: { Self.scale.places ≤ 2 };

    ghost headways: { SHOWS_HEADWAY ≡ not (Self.NUMBER == 3) };
}

impl Printed for Seconds {
    const SHOWS_HEADWAY: bool = true;

    ghost SHOWS_HEADWAY = { true };

    ghost narrow = { Prim.search rules };

    ghost headways = { refl };
}

impl Printed for SecondsMetres {
    const SHOWS_HEADWAY: bool = true;

    ghost SHOWS_HEADWAY = { true };

    ghost narrow = { Prim.search rules };

    ghost headways = { refl };
}

impl Printed for ReversedSeconds {
    const SHOWS_HEADWAY: bool = false;

    ghost SHOWS_HEADWAY = { false };

    ghost narrow = { Prim.search rules };

    ghost headways = { refl };
}

// How many events the tables are for, and how many entries each then has.
const EVENTS: usize = MOST_EVENTS as usize;

const ENTRIES: usize = (EVENTS + 1) * EVENTS;

/// The report on the bytes of a file, read in one measure, on an empty page; or why there is none.
fn in_measure<X: Printed>(file: &[u8], page: &mut Page) -> Result<(), Refusal>
    requires small { 3660 * type_size X.row < 2 ^ 63 }
    requires empty { page.old.bytes ≡ [] }
    ensures { OpenedText X.scale.order X.NUMBER file.now (text_of page.new.bytes result) }
{
    let opened = open::<X>(file)?;
    // Local arrays: the library that C links has no heap.
    let mut rows = [X::zero(); ENTRIES];
    let mut marks = [0; ENTRIES];
    let mut leaves = [X::zero(); EVENTS];
    let mut circle = [0; EVENTS];
    let mut space = Workspace {
        rows: &mut rows,
        marks: &mut marks,
        leaves: &mut leaves,
        circle: &mut circle,
    };
    tell_network(&opened, opened.claim(), &mut space, page)
}

/// The report on the bytes of a file, in the measure that its heading names, on an empty page; where it names none of the
/// three, as in seconds.
pub(crate) fn in_named_measure(file: &[u8], page: &mut Page) -> Result<(), Refusal>
    requires { page.old.bytes ≡ [] }
    ensures { MeasuredText (measure_of (named_measure (words_of file.now))) file.now (text_of page.new.bytes result) }
{
    let number = named_measure(file).unwrap_or(Seconds::NUMBER);
    // Each arm is a function at another type, so that no table of them can be made.
    match FiledMeasure::try_from(number).unwrap_or(FiledMeasure::Seconds) {
        FiledMeasure::Seconds => in_measure::<Seconds>(file, page),
        FiledMeasure::SecondsMetres => in_measure::<SecondsMetres>(file, page),
        FiledMeasure::ReversedSeconds => in_measure::<ReversedSeconds>(file, page),
    }
}
