//! The words of a file, and what the bits of a word say.
ghost use Rattle.std.specs.Prelude.{◌≡◌, ◌+◌, ◌*◌, ◌<◌, ◌≤◌, length};
ghost use Rattle.std.specs.Iterator.{YieldsFirst, item_count};
ghost use Rattle.file.specs.Words.{words_of, word_no, place_of};
ghost use Rattle.file.specs.Words.{field as field_of, lower as lower_of, middle as middle_of, upper as upper_of};

/// How many bytes make a word.
pub(crate) const WORD: usize = 4;

/// How many columns a word has: its bits below the kind.
pub(crate) const COLUMNS: u32 = 28;

/// The words of a run of bytes, from the front, the high byte of each first; bytes left over at the end make no word.
#[derive(Drop)]
pub(crate) struct Words<'a>(pub(crate) &'a [u8]);

impl<'a> Iterator for Words<'a> {
    type Item = u32;

    ghost next_gives = { YieldsFirst (λ s. words_of s.0.now) };

    ghost remaining = { item_count (λ s. words_of s.0.now) };

    #[tactic(auto, using(crate::proofs::WordLists::word_count))]
    fn next(&mut self) -> Option<u32> {
        let (word, rest) = self.0.split_first_chunk::<WORD>()?;
        self.0 = rest;
        Some(u32::from_be_bytes(*word))
    }
}

/// Word k, the high byte first.
#[tactic(auto, using(crate::proofs::WordLists::word_bytes))]
pub(crate) fn word(bytes: &[u8], k: usize) -> u32
    requires { 4 * k + 4 ≤ length bytes.now }
    ensures { result ≡ word_no (words_of bytes.now) k }
{
    let at = WORD * k;
    u32::from_be_bytes([bytes[at], bytes[at + 1], bytes[at + 2], bytes[at + 3]])
}

/// The number in the bits from `low` up, `wide` of them.
pub(crate) fn field(w: u32, low: u32, wide: u32) -> u32
    requires { (low < 32) × (wide < 32) }
    ensures { result ≡ field_of w low wide }
{
    (w >> low) % (1 << wide)
}

/// Bits 11-0.
pub(crate) fn lower(w: u32) -> u32
    ensures { result ≡ lower_of w }
{
    field(w, 0, 12)
}

/// Bits 23-12.
pub(crate) fn middle(w: u32) -> u32
    ensures { result ≡ middle_of w }
{
    field(w, 12, 12)
}

/// Bits 27-24.
pub(crate) fn upper(w: u32) -> u32
    ensures { result ≡ upper_of w }
{
    field(w, 24, 4)
}

/// The 28 bits below the kind, signed by two's complement.
pub(crate) fn place(w: u32) -> i64
    ensures { result ≡ place_of w }
{
    let bits = field(w, 0, COLUMNS) as i64;
    if bits < 0x800_0000 {
        bits
    } else {
        bits - 0x1000_0000
    }
}
