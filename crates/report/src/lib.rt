//! The printed report: the period of a filed network, its headway, loop and departures, as lines of text.

#![tactic(auto)]

ghost use Rattle.std.specs.Prelude.{◌≡◌, []};
ghost use Rattle.report.specs.Reported.{FileText, Reported, text_of};

use crate::fault::TooBig;
use crate::lines::refusal_line;
use crate::measures::in_named_measure;
pub use crate::text::Page;
use crate::text::{append, copy};
use refusal::Refusal;

mod division;
mod fault;
mod lines;
mod measures;
mod page;
mod telling;
mod text;
pub mod verdict;

// The fewest bytes that a text space has.
const PAGE: usize = 4096;

// The answer where it has fewer: a C program is answered by one number.
const SMALL_PAGE: i64 = -17;

/// The most bytes that a file has; a longer one is refused as too big.
pub const MOST_BYTES: usize = 60_000;

// The report on the bytes of a file, on an empty page; or why there is none.
// The page is handed down from here on: by value it would be copied at each step, and C would have to bring `memcpy`.
fn report_on(file: &[u8], page: &mut Page) -> Result<(), Refusal>
    requires { page.old.bytes ≡ [] }
    ensures { FileText file.now (text_of page.new.bytes result) }
{
    if file.len() > MOST_BYTES {
        return Err(TooBig(MOST_BYTES as u64).into());
    }
    in_named_measure(file, page)
}

// Writes the text of the report on an empty page; where there is none, the line of the refusal.
fn write_page(file: &[u8], page: &mut Page)
    requires { page.old.bytes ≡ [] }
    ensures { FileText file.now page.new.bytes }
{
    if let Err(refusal) = report_on(file, page) {
        page.clear();
        append(page, &refusal_line(refusal));
    }
}

/// The text of the report on the bytes of a file; where there is none, the line of the refusal.
pub fn page_of(file: &[u8]) -> Page
    ensures { FileText file.now result.bytes }
{
    let mut page = Page::new();
    write_page(file, &mut page);
    page
}

/// Writes the report on the bytes of a file into the text space, and answers how many bytes it wrote; -17 if the space is
/// small.
pub fn report(file: &[u8], text: &mut [u8]) -> i64
    ensures { Reported file.now text.old text.new result }
{
    if text.len() < PAGE {
        return SMALL_PAGE;
    }
    let mut whole = Page::new();
    write_page(file, &mut whole);
    copy(whole.as_bytes(), &mut text[..whole.len()]);
    whole.len() as i64
}
