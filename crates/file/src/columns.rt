//! The columns of the closing word.
ghost use Rattle.std.specs.Prelude.{◌≡◌, ◌%◌, ◌<◌, Decides};
ghost use Rattle.file.specs.Words.{words_of};
ghost use Rattle.file.specs.Columns.{ones_in, Agrees};

use crate::words::{COLUMNS, Words};

// 1 where an odd number of the words have a 1 in column c, else 0.
fn parity(bytes: &[u8], c: u32) -> u32
    requires { c < 28 }
    ensures { result ≡ ones_in c (words_of bytes.now) % 2 }
{
    Words(bytes).fold(0, |odd, w| odd ^ (w >> c)) % 2
}

/// Whether the closing word agrees in every column with the words before it.
pub(crate) fn closes(before: &[u8], closing: u32) -> bool
    ensures { Decides result (Agrees (words_of before.now) closing) }
{
    for c in 0..COLUMNS {
        if parity(before, c) != (closing >> c) % 2 {
            return false;
        }
    }
    true
}
