//! The whole text of a report.
ghost use Rattle.std.specs.Prelude.{◌≡◌, ℕ, ◌+◌, ◌<◌, ◌≤◌, [], ◌++◌, length, slice_index};
ghost use Rattle.amount.specs.Scales.{IsExact};
ghost use Rattle.report.specs.Headways.{Headway};
ghost use Rattle.report.specs.Lines.{places_of, leaves_line};
ghost use Rattle.report.specs.Reports.{first_of, rows_of, leaves_lines, headway_text, claim_text, content_of, ReportOf};

use crate::division::headway;
use crate::lines::{claim_line, departure_line, headway_line, period_line, push_loop_line};
use crate::measures::Printed;
use crate::text::{Page, append, places_of};
use crate::verdict::Verdict;
use amount::filed::Filed;
use amount::measure::Measure;
use arrayvec::ArrayString;
use network::{Network, Period};

/// The first place of an amount's row.
fn first_place<X: Printed>(x: X) -> i64
    ensures { result ≡ first_of (places_of X.scale x) }
{
    places_of(x).first().copied().unwrap_or(0)
}

/// The headway of a period.
// Its count is above 0 by a clause, here and in `report_page`, as in `division`.
fn headway_of<X: Printed>(period: Period<X>) -> i64
    requires some { 0 < period.count }
    requires near { IsExact X.scale (X.scale.row period.total) }
    ensures { Headway (first_of (places_of X.scale period.total)) period.count result }
{
    headway(first_place(period.total), period.count)
}

/// The headway's line, in the measures that show one.
fn headway_text<X: Printed>(headway: i64) -> ArrayString<29>
    ensures { result.bytes ≡ headway_text X.NUMBER headway }
{
    if X::SHOWS_HEADWAY {
        headway_line(headway)
    } else {
        ArrayString::new()
    }
}

/// Writes the departure of an event on the page, in at most 53 bytes.
fn push_departure_line<X: Printed>(page: &mut Page, event: u8, departure: X)
    requires { length page.old.bytes + 53 ≤ 4096 }
    ensures wrote { page.new.bytes ≡ page.old.bytes ++ leaves_line event (places_of X.scale departure) }
    ensures short { length page.new.bytes ≤ length page.old.bytes + 53 }
{
    append(page, &departure_line(event, departure));
}

/// Writes a line for each of at most 60 departures on the page, of at most 53 bytes.
fn push_departure_lines<X: Printed>(page: &mut Page, departures: &[X])
    requires few { length departures.now ≤ 60 }
    requires room { length page.old.bytes + 3180 ≤ 4096 }
    ensures wrote { page.new.bytes ≡ page.old.bytes ++ leaves_lines 0 (rows_of X.scale departures.now) }
    ensures short { length page.new.bytes ≤ length page.old.bytes + 3180 }
{
    for (event, departure) in departures.iter().enumerate() {
        push_departure_line(page, event as u8, *departure);
    }
}

/// The claim's line, if there is a verdict on one.
fn claim_text(verdict: Option<Verdict>) -> ArrayString<12>
    ensures { result.bytes ≡ claim_text verdict }
{
    verdict.map(claim_line).unwrap_or_default()
}

/// Writes the report on a network of at most 60 events on an empty page: its period, the wait numbers of its loop, its
/// departures, and the verdict on a claim.
pub(crate) fn report_page<X: Printed, N: Network<X>>(
    net: &N,
    period: Period<X>,
    waits: &[u32],
    departures: &[X],
    verdict: Option<Verdict>,
    page: &mut Page,
)
    requires some { 0 < period.count }
    requires near { IsExact X.scale (X.scale.row period.total) }
    requires brief { length waits.now ≤ 60 }
    requires known { (i : ℕ) → i < length waits.now → slice_index waits.now i < length (N.graph net.now).waits }
    requires few { length departures.now ≤ 60 }
    requires empty { page.old.bytes ≡ [] }
    ensures { ReportOf (content_of X.scale X.NUMBER (N.graph net.now) period waits.now departures.now verdict) page.new.bytes }
{
    append(page, &period_line(period));
    append(page, &headway_text::<X>(headway_of(period)));
    push_loop_line(page, net, waits);
    push_departure_lines(page, departures);
    append(page, &claim_text(verdict));
}
