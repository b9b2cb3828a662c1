//! The page that a report is printed on, and the text of an amount.
ghost use Rattle.std.specs.Prelude.{◌≡◌, ◌+◌, ◌≤◌, ◌++◌, length, IsAscii};
ghost use Rattle.arrayvec.specs.ArrayString.{array_string_len};
ghost use Rattle.report.specs.Lines.{places_of, row_text};

use crate::measures::Printed;
use arrayvec::{ArrayString, ArrayVec};
use itoa::Buffer;

/// Every report fits on a page.
pub type Page = ArrayString<4096>;

/// Appends a piece whose length is known only when it runs.
// By one `push_str` it would be copied by `memcpy` or `memmove`, which C would have to bring. The mask changes no byte: it tells
// the compiler that each is a character of its own.
pub(crate) fn append<const N: usize>(text: &mut ArrayString<N>, piece: &str)
    requires room { array_string_len text.old + length piece.now ≤ N }
    requires ascii { IsAscii piece.now }
    ensures bytes { text.new.bytes ≡ text.old.bytes ++ piece.now }
    ensures len { array_string_len text.new ≡ array_string_len text.old + length piece.now }
{
    for byte in piece.as_bytes() {
        text.push((*byte & 127) as char);
    }
}

/// Copies the bytes of a page into a text space.
// By hand and not inlined, since it would become a call of `memcpy` or `memmove` otherwise.
#[inline(never)]
pub(crate) fn copy(from: &[u8], to: &mut [u8])
    requires { length to.old ≡ length from.now }
    ensures { to.new ≡ from.now }
{
    for (at, byte) in from.iter().enumerate() {
        to[at] = *byte;
    }
}

/// The places of a row, in a measure that is printed.
pub(crate) type Places = ArrayVec<i64, 2>;

/// The places of an amount's row.
pub(crate) fn places_of<X: Printed>(x: X) -> Places
    ensures { result.items ≡ places_of X.scale x }
{
    let mut places = Places::from([0; 2]);
    places.truncate(X::PLACES);
    x.to_places(&mut places);
    places
}

/// The places, joined by commas; piece by piece, as the lines are, for the reason there.
pub(crate) fn row_text(places: &Places) -> ArrayString<41>
    ensures bytes { result.bytes ≡ row_text places.now.items }
    ensures ascii { IsAscii result.bytes }
{
    let mut text = ArrayString::new();
    if let [first, rest @ ..] = places.as_slice() {
        append(&mut text, Buffer::new().format(*first));
        for place in rest {
            text.push_str(",");
            append(&mut text, Buffer::new().format(*place));
        }
    }
    text
}
