//! The printed report: the samples worked out by hand, every refusal at its number and place, and damaged files.
use crate::random::Draw;
use crate::writing::Writer;
use report::report;
use std::alloc::{AllocError, Global};
use std::process::Abort;
use std::test::Fail;

// The least text space that the report takes.
const TEXT_SPACE: usize = 4096;

// What fills the text space before a call, and stays past what is written.
const FILLER: u8 = b'#';

// The words of a file, as bytes.
fn bytes_of(heap: Global, words: &[u32]) -> Result<Vec<u8>, AllocError> {
    let mut bytes = Vec::new(heap);
    for w in words {
        for b in w.to_be_bytes() {
            bytes.push(b)?;
        }
    }
    Ok(bytes)
}

// The report of a file is this text, and what lies past it stays.
fn check_text(rt: &impl Abort, file: &[u8], expected: &str) {
    let mut text = [FILLER; TEXT_SPACE + 4];
    let wrote = report(file, &mut text);
    assert_eq!(rt; wrote, expected.len() as i64);
    for (b, wanted) in text.iter().zip(expected.bytes()) {
        assert!(rt; *b == wanted, "{}", expected);
    }
    for b in text.iter().skip(expected.len()) {
        assert!(rt; *b == FILLER);
    }
}

fn check_words(rt: &impl Abort, heap: Global, words: &[u32], expected: &str) -> Result<(), Fail> {
    let bytes = bytes_of(heap, words)?;
    check_text(rt, bytes.as_slice(), expected);
    Ok(())
}

// The same with the closing word that these words ask for.
fn check_closed(rt: &impl Abort, heap: Global, words: &[u32], expected: &str) -> Result<(), Fail> {
    let mut writer = Writer::new(heap);
    for w in words {
        writer.word(*w)?;
    }
    writer.closing()?;
    check_text(rt, writer.bytes(), expected);
    Ok(())
}

const LISTING: [u32; 14] = [
    0x1100_0003,
    0x2000_0001,
    0x3000_0258,
    0x2000_1000,
    0x3000_0384,
    0x2000_1002,
    0x3000_012c,
    0x2000_2000,
    0x3000_05dc,
    0x2000_2002,
    0x3000_00f0,
    0x4000_0002,
    0x3000_05dc,
    0x5100_0000,
];

// A whole report, or one refusal: nothing else may come of any bytes.
fn check_any(rt: &impl Abort, file: &[u8]) {
    let mut text = [FILLER; TEXT_SPACE];
    let wrote = report(file, &mut text);
    assert!(rt; wrote > 0);
    assert!(rt; wrote <= TEXT_SPACE as i64);
    let wrote = wrote as usize;
    assert!(rt; text[0] == b'r' || text[0] == b'p');
    assert!(rt; text[wrote - 1] == b'\n');
    for b in text.iter().skip(wrote) {
        assert!(rt; *b == FILLER);
    }
}

#[test]
fn the_listing_and_its_claims(rt: HostRuntime) -> Result<(), Fail> {
    let heap = rt.alloc();
    check_words(
        &rt,
        heap,
        &LISTING,
        "period 2400 / 3\nheadway 800\nloop 0 1 2\nleaves 0 2100\nleaves 1 1500\nleaves 2 0\nclaim short\n",
    )?;
    let mut right = LISTING;
    right[12] = 0x3000_0640;
    check_closed(
        &rt,
        heap,
        &right[0..13],
        "period 2400 / 3\nheadway 800\nloop 0 1 2\nleaves 0 2100\nleaves 1 1500\nleaves 2 0\nclaim right\n",
    )?;
    let mut long = LISTING;
    long[11] = 0x4000_0003;
    long[12] = 0x3000_09c4;
    check_closed(
        &rt,
        heap,
        &long[0..13],
        "period 2400 / 3\nheadway 800\nloop 0 1 2\nleaves 0 2100\nleaves 1 1500\nleaves 2 0\nclaim long\n",
    )
}

#[test]
fn samples_of_each_measure(rt: HostRuntime) -> Result<(), Fail> {
    let heap = rt.alloc();
    let mut reversed = LISTING;
    reversed[0] = 0x1300_0003;
    let cases: [(&[u32], &str); 6] = [
        (
            &reversed[0..11],
            "period 240 / 1\nloop 2\nleaves 0 0\nleaves 1 0\nleaves 2 0\n",
        ),
        (
            &[0x1100_0001, 0x2000_0000, 0x3000_00f0],
            "period 240 / 1\nheadway 240\nloop 0\nleaves 0 0\n",
        ),
        (
            &[
                0x1100_0002,
                0x2000_0001,
                0x3fff_fff9,
                0x2000_1000,
                0x3000_0000,
            ],
            "period -7 / 2\nheadway -3\nloop 0 1\nleaves 0 7\nleaves 1 0\n",
        ),
        (
            &[
                0x1100_0002,
                0x2000_0000,
                0x3000_012c,
                0x2000_1001,
                0x3000_01f4,
            ],
            "period 500 / 1\nheadway 500\nloop 1\nleaves 0 0\nleaves 1 0\n",
        ),
        (
            &[
                0x1200_0002,
                0x2000_0000,
                0x3000_0258,
                0x3000_0028,
                0x2000_1001,
                0x3000_0258,
                0x3000_0037,
            ],
            "period 600,55 / 1\nheadway 600\nloop 1\nleaves 0 0,0\nleaves 1 0,0\n",
        ),
        // means that a division to whole seconds would take for equal: 1500 over 2 and 2251 over 3
        (
            &[
                0x1100_0005,
                0x2000_0001,
                0x3000_05dc,
                0x2000_1000,
                0x3000_0000,
                0x2000_2003,
                0x3000_08cb,
                0x2000_3004,
                0x3000_0000,
                0x2000_4002,
                0x3000_0000,
            ],
            "period 2251 / 3\nheadway 751\nloop 2 3 4\nleaves 0 0\nleaves 1 2249\nleaves 2 0\nleaves 3 4502\nleaves 4 2251\n",
        ),
    ];
    for (words, expected) in cases {
        check_closed(&rt, heap, words, expected)?;
    }
    Ok(())
}

#[test]
fn refusals_of_the_file(rt: HostRuntime) -> Result<(), Fail> {
    let heap = rt.alloc();
    check_text(&rt, &[], "refused 1 file 0\n");
    let bytes = bytes_of(heap, &LISTING)?;
    assert!(rt; bytes.len() == 56);
    check_text(&rt, &bytes.as_slice()[0..55], "refused 1 file 55\n");
    let cases: [(&[u32], &str); 10] = [
        // a kind that is not allowed there
        (&[0x2000_0000], "refused 2 file 0\n"),
        (&[0x1100_0001, 0x3000_0000], "refused 2 file 1\n"),
        (
            &[0x1100_0001, 0x2000_0000, 0x2000_0000],
            "refused 2 file 2\n",
        ),
        (
            &[
                0x1100_0001,
                0x4000_0001,
                0x3000_0000,
                0x2000_0000,
                0x3000_0000,
            ],
            "refused 2 file 3\n",
        ),
        (
            &[
                0x1100_0001,
                0x4000_0001,
                0x3000_0000,
                0x4000_0001,
                0x3000_0000,
            ],
            "refused 2 file 3\n",
        ),
        (&[0x1100_0001, 0x7000_0001], "refused 2 file 1\n"),
        // a bit due to be zero
        (&[0x1100_1001], "refused 3 file 0\n"),
        (
            &[0x1100_0001, 0x2100_0000, 0x3000_0000],
            "refused 3 file 1\n",
        ),
        (
            &[0x1100_0001, 0x4000_1001, 0x3000_0000],
            "refused 3 file 1\n",
        ),
        (
            &[0x1100_0001, 0x4800_0001, 0x3000_0000],
            "refused 3 file 1\n",
        ),
    ];
    for (words, expected) in cases {
        check_closed(&rt, heap, words, expected)?;
    }
    // no closing word, words after it, columns that disagree
    check_words(&rt, heap, &[0x1100_0001], "refused 4 file 1\n")?;
    check_words(&rt, heap, &LISTING[0..13], "refused 4 file 13\n")?;
    let mut doubled = bytes_of(heap, &LISTING)?;
    for b in 0x5100_0000u32.to_be_bytes() {
        doubled.push(b)?;
    }
    check_text(&rt, doubled.as_slice(), "refused 5 file 14\n");
    let mut off = LISTING;
    off[13] = 0x5100_0001;
    check_words(&rt, heap, &off, "refused 6 file 13\n")
}

#[test]
fn refusals_by_measure_event_span_and_count(rt: HostRuntime) -> Result<(), Fail> {
    let heap = rt.alloc();
    let cases: [(&[u32], &str); 20] = [
        (&[0x1000_0001], "refused 7 file 0\n"),
        (&[0x1400_0001], "refused 7 file 0\n"),
        (
            &[0x1100_0002, 0x2000_2000, 0x3000_0000],
            "refused 8 file 1\n",
        ),
        (
            &[0x1100_0002, 0x2000_1002, 0x3000_0000],
            "refused 8 file 1\n",
        ),
        // places at and beyond their bounds: 86,400 either way of a wait, 86,400,000 of a claim
        (
            &[0x1100_0001, 0x2000_0000, 0x3001_5180],
            "period 86400 / 1\nheadway 86400\nloop 0\nleaves 0 0\n",
        ),
        (
            &[0x1100_0001, 0x2000_0000, 0x3001_5181],
            "refused 9 file 2\n",
        ),
        (
            &[0x1100_0001, 0x2000_0000, 0x3ffe_ae80],
            "period -86400 / 1\nheadway -86400\nloop 0\nleaves 0 0\n",
        ),
        (
            &[0x1100_0001, 0x2000_0000, 0x3ffe_ae7f],
            "refused 9 file 2\n",
        ),
        (
            &[0x1200_0001, 0x2000_0000, 0x3000_0000, 0x3001_5181],
            "refused 9 file 3\n",
        ),
        (
            &[
                0x1100_0001,
                0x2000_0000,
                0x3000_0001,
                0x4000_03e8,
                0x3526_5c00,
            ],
            "period 1 / 1\nheadway 1\nloop 0\nleaves 0 0\nclaim long\n",
        ),
        (
            &[0x1100_0001, 0x4000_0001, 0x3526_5c01],
            "refused 9 file 2\n",
        ),
        (
            &[0x1100_0001, 0x4000_0001, 0x3ad9_a400],
            "refused 13 engine 1\n",
        ),
        (
            &[0x1100_0001, 0x4000_0001, 0x3ad9_a3ff],
            "refused 9 file 2\n",
        ),
        // counts
        (&[0x1100_0000], "refused 15 file 0\n"),
        (&[0x1100_03e9], "refused 15 file 0\n"),
        (
            &[0x1100_0001, 0x4000_0000, 0x3000_0000],
            "refused 15 file 1\n",
        ),
        (
            &[0x1100_0001, 0x4000_03e9, 0x3000_0000],
            "refused 15 file 1\n",
        ),
        // for one word the order of the tests: kind, spare bits, measure, event, count
        (&[0x1410_1000], "refused 3 file 0\n"),
        (&[0x1400_0000], "refused 7 file 0\n"),
        (
            &[0x1100_0001, 0x2100_1001, 0x3000_0000],
            "refused 3 file 1\n",
        ),
    ];
    for (words, expected) in cases {
        check_closed(&rt, heap, words, expected)?;
    }
    Ok(())
}

#[test]
fn refusals_of_the_report_and_the_engine(rt: HostRuntime) -> Result<(), Fail> {
    let heap = rt.alloc();
    let cases: [(&[u32], &str); 4] = [
        (&[0x1100_0001], "refused 13 engine 1\n"),
        (&[0x1100_003c], "refused 13 engine 60\n"),
        (&[0x1100_003d], "refused 14 report 61\n"),
        (&[0x1100_03e8], "refused 14 report 1000\n"),
    ];
    for (words, expected) in cases {
        check_closed(&rt, heap, words, expected)?;
    }
    // the file's own refusal comes before its events are counted, and its size before that
    check_words(&rt, heap, &[0x1100_003d], "refused 4 file 1\n")?;
    let zeros = vec![in heap; 0u8; 60_000]?;
    check_text(&rt, zeros.as_slice(), "refused 2 file 0\n");
    let more = vec![in heap; 0u8; 60_001]?;
    check_text(&rt, more.as_slice(), "refused 14 report 60000\n");
    // a small text space
    let mut small = [FILLER; TEXT_SPACE - 1];
    assert_eq!(rt; report(more.as_slice(), &mut small), -17);
    for b in small.iter() {
        assert!(rt; *b == FILLER);
    }
    Ok(())
}

#[test]
fn damaged_files(rt: HostRuntime) -> Result<(), Fail> {
    let heap = rt.alloc();
    let whole = bytes_of(heap, &LISTING)?;
    // every truncation
    for n in 0..whole.len() {
        if let Some(cut) = whole.get(..n) {
            check_any(&rt, cut);
        }
    }
    // every bit turned
    for i in 0..whole.len() {
        for bit in 0..8u32 {
            let mut turned = bytes_of(heap, &LISTING)?;
            if let Some(byte) = turned.get_mut(i) {
                *byte ^= 1u8 << bit;
            }
            check_any(&rt, turned.as_slice());
        }
    }
    // random words, most of them of a kind that may come next
    let mut draw = Draw::new(7);
    for _ in 0..2000 {
        let mut writer = Writer::new(heap);
        writer.heading(
            draw.below(3).saturating_add(1),
            draw.below(8).saturating_add(1),
        )?;
        for _ in 0..draw.below(12) {
            let kind = draw.below(7);
            let body = draw.below(0x1000_0000) & draw.below(0x1000_0000) & draw.below(0x1000_0000);
            writer.word((kind << 28) | body)?;
        }
        writer.closing()?;
        check_any(&rt, writer.bytes());
    }
    Ok(())
}
