//! The lines of a report, each as a text of its own; its type has room for the longest. That of the loop is long, and goes
//! straight onto the page. They are put together piece by piece: `write!` promises its bytes only on `Ok`, and no clause says
//! when it is `Ok`.
ghost use Rattle.std.specs.Prelude.{◌≡◌, ℕ, ◌+◌, ◌<◌, ◌≤◌, ◌++◌, length, slice_index, IsAscii};
ghost use Rattle.report.specs.Lines.{places_of, refusal_line, period_line, headway_line, loop_line, starts_of, leaves_line, claim_line};

use crate::measures::Printed;
use crate::text::{Page, append, places_of, row_text};
use crate::verdict::Verdict;
use amount::filed::Filed;
use amount::measure::Measure;
use arrayvec::ArrayString;
use itoa::Buffer;
use network::{Network, Period};
use refusal::Refusal;

/// A refusal.
pub(crate) fn refusal_line(refusal: Refusal) -> ArrayString<47>
    ensures bytes { result.bytes ≡ refusal_line refusal }
    ensures ascii { IsAscii result.bytes }
{
    let mut line = ArrayString::new();
    line.push_str("refused ");
    append(&mut line, Buffer::new().format(refusal.number));
    line.push_str(" ");
    append(&mut line, refusal.layer.word());
    line.push_str(" ");
    append(&mut line, Buffer::new().format(refusal.place));
    line.push_str("\n");
    line
}

/// The period: its total and its count.
pub(crate) fn period_line<X: Printed>(period: Period<X>) -> ArrayString<63>
    ensures bytes { result.bytes ≡ period_line (places_of X.scale period.total) period.count }
    ensures ascii { IsAscii result.bytes }
{
    let mut line = ArrayString::new();
    line.push_str("period ");
    append(&mut line, &row_text(&places_of(period.total)));
    line.push_str(" / ");
    append(&mut line, Buffer::new().format(period.count));
    line.push_str("\n");
    line
}

/// The headway, in whole seconds.
pub(crate) fn headway_line(headway: i64) -> ArrayString<29>
    ensures { result.bytes ≡ headway_line headway }
{
    let mut line = ArrayString::new();
    line.push_str("headway ");
    append(&mut line, Buffer::new().format(headway));
    line.push_str("\n");
    line
}

/// The departure of an event.
pub(crate) fn departure_line<X: Printed>(event: u8, departure: X) -> ArrayString<53>
    ensures bytes { result.bytes ≡ leaves_line event (places_of X.scale departure) }
    ensures ascii { IsAscii result.bytes }
{
    let mut line = ArrayString::new();
    line.push_str("leaves ");
    append(&mut line, Buffer::new().format(event));
    line.push_str(" ");
    append(&mut line, &row_text(&places_of(departure)));
    line.push_str("\n");
    line
}

/// The verdict on a claim.
pub(crate) fn claim_line(verdict: Verdict) -> ArrayString<12>
    ensures { result.bytes ≡ claim_line verdict }
{
    let mut line = ArrayString::new();
    line.push_str("claim ");
    append(&mut line, verdict.word());
    line.push_str("\n");
    line
}

/// Writes the start events of a loop of at most 60 waits on the page, in at most 665 bytes.
pub(crate) fn push_loop_line<X: Measure, N: Network<X>>(page: &mut Page, net: &N, waits: &[u32])
    requires brief { length waits.now ≤ 60 }
    requires known { (i : ℕ) → i < length waits.now → slice_index waits.now i < length (N.graph net.now).waits }
    requires room { length page.old.bytes + 665 ≤ 4096 }
    ensures wrote { page.new.bytes ≡ page.old.bytes ++ loop_line (starts_of (N.graph net.now).waits waits.now) }
    ensures short { length page.new.bytes ≤ length page.old.bytes + 665 }
{
    page.push_str("loop");
    for wait in waits {
        page.push_str(" ");
        append(page, Buffer::new().format(net.wait(*wait).start));
    }
    page.push_str("\n");
}
