//! The engine on small networks, against the listing of every loop and every walk.
use crate::listing::{Mean, Order, Pair, SmallNetwork, SmallWait};
use crate::random::Draw;
use crate::writing::Writer;
use amount::filed::{Filed, MOST_PLACES};
use amount::measure::Measure;
use amount::reversed::ReversedSeconds;
use amount::seconds::Seconds;
use amount::seconds_metres::SecondsMetres;
use engine::{EngineFault, Workspace, solve};
use file::open;
use network::{Network, Period};
use refusal::{Layer, Refusal};
use std::alloc::{AllocError, Global};
use std::process::Abort;
use std::test::Fail;

// How many events and waits a drawn network has at most, and how many entries the tables are lent for it.
const MOST_EVENTS: u32 = 7;

const MOST_WAITS: u32 = 11;

// How many departures and loop numbers it is lent space for: more than it needs.
const SPACE: usize = 9;

const LENGTHS: Lengths = Lengths {
    rows: 60,
    marks: 60,
    leaves: SPACE,
    circle: SPACE,
};

// The places of an amount; the second is 0 in measures of one.
fn pair_of<X: Filed>(x: X) -> Pair {
    // A local array, cut to the measure's places: an `ArrayVec` would be made of one and cut as well, and is no plainer.
    let mut places = [0i64; MOST_PLACES];
    x.to_places(&mut places[..X::PLACES]);
    Pair {
        first: places[0],
        second: places[1],
    }
}

// The lengths of what is lent to the engine.
#[derive(Clone, Copy)]
struct Lengths {
    rows: usize,
    marks: usize,
    leaves: usize,
    circle: usize,
}

// Memory of these lengths, with zero rows and numbers that no network has: a `Space` is neither longer nor shorter than it
// need be.
#[derive(Drop)]
struct Lent<X> {
    rows: Vec<X>,
    marks: Vec<u32>,
    leaves: Vec<X>,
    circle: Vec<u32>,
}

impl<X: Measure> Lent<X> {
    fn new(heap: Global, lengths: Lengths) -> Result<Lent<X>, AllocError> {
        Ok(Lent {
            rows: vec![in heap; X::zero(); lengths.rows]?,
            marks: vec![in heap; 77u32; lengths.marks]?,
            leaves: vec![in heap; X::zero(); lengths.leaves]?,
            circle: vec![in heap; 77u32; lengths.circle]?,
        })
    }

    fn solve<N: Network<X>>(&mut self, net: &N) -> Result<Period<X>, EngineFault> {
        let mut space = Workspace {
            rows: self.rows.as_mut_slice(),
            marks: self.marks.as_mut_slice(),
            leaves: self.leaves.as_mut_slice(),
            circle: self.circle.as_mut_slice(),
        };
        solve(net, &mut space)
    }
}

// The bytes of a file with these waits and no claim.
fn spelled<X: Filed>(heap: Global, n: u32, waits: &[SmallWait]) -> Result<Writer, Fail> {
    let mut writer = Writer::new(heap);
    writer.heading(X::NUMBER, n)?;
    for w in waits {
        writer.wait(*w, X::PLACES)?;
    }
    writer.closing()?;
    Ok(writer)
}

// The loop shown is closed, begins at its lowest event, starts at no event twice, and has the period's count and total.
fn check_loop(
    rt: &impl Abort,
    waits: &[SmallWait],
    shown: Mean,
    circle: &[u32],
) -> Result<(), Fail> {
    assert!(rt; shown.count as usize <= circle.len());
    let mut total = Pair::default();
    let mut seen = 0u32;
    let mut lowest = None;
    let mut at = None;
    for e in circle.iter().take(shown.count as usize) {
        let Some(w) = waits.get(*e as usize) else {
            return Err(Fail::new("a wait that is not there"));
        };
        assert!(rt; lowest.is_none_or(|low| low < w.start));
        assert!(rt; at.is_none_or(|there| there == w.start));
        lowest = lowest.or(Some(w.start));
        assert!(rt; w.start < 32);
        assert!(rt; seen & (1u32 << w.start) == 0);
        seen |= 1u32 << w.start;
        total = total + w.amount;
        at = Some(w.end);
    }
    assert!(rt; at == lowest);
    assert_eq!(rt; total, shown.total);
    Ok(())
}

// The departures shown are what the walks give, and what lies past them is as it was.
fn check_departures<X: Filed>(
    rt: &impl Abort,
    network: SmallNetwork<'_>,
    shown: Mean,
    leaves: &[X],
) {
    let mut latest = [Pair::default(); SPACE];
    network.latest_departures(shown, &mut latest[..MOST_EVENTS as usize]);
    for (given, x) in latest.iter().zip(leaves.iter()) {
        assert_eq!(rt; pair_of(*x), *given);
    }
}

// One network: the engine and the listing say the same.
fn check_network<X: Filed>(
    rt: &impl Abort,
    heap: Global,
    network: SmallNetwork<'_>,
) -> Result<(), Fail> {
    let n = network.events;
    let waits = network.waits;
    let writer = spelled::<X>(heap, n, waits)?;
    let Ok(opened) = open::<X>(writer.bytes()) else {
        return Err(Fail::new("the file does not open"));
    };
    let mut lent = Lent::<X>::new(heap, LENGTHS)?;
    match lent.solve(&opened) {
        Ok(period) => {
            let shown = Mean {
                total: pair_of(period.total),
                count: period.count,
            };
            let Some(greatest) = network.greatest_mean() else {
                return Err(Fail::new("a loop where there is none"));
            };
            assert!(rt; !shown.below(greatest, network.order));
            assert!(rt; !greatest.below(shown, network.order));
            check_loop(rt, waits, shown, lent.circle.as_slice())?;
            assert_eq!(rt; lent.leaves.len(), SPACE);
            check_departures(rt, network, shown, lent.leaves.as_slice());
            Ok(())
        }
        Err(EngineFault::NoLoop(place)) => {
            assert!(rt; place == n);
            assert!(rt; network.greatest_mean().is_none());
            Ok(())
        }
        Err(EngineFault::ShortTable(_)) => Err(Fail::new("enough was lent")),
    }
}

// Draws networks of up to seven events and tries each in one measure.
fn check_many<X: Filed>(
    rt: &impl Abort,
    heap: Global,
    order: Order,
    seed: u64,
    times: u32,
) -> Result<(), Fail> {
    let mut draw = Draw::new(seed);
    for _ in 0..times {
        let n = draw.below(MOST_EVENTS).saturating_add(1);
        let mut waits = Vec::new(heap);
        for _ in 0..draw.below(MOST_WAITS + 1) {
            let mut w = draw.wait(n);
            if X::PLACES == 1 {
                w.amount.second = 0;
            }
            waits.push(w)?;
        }
        let network = SmallNetwork {
            events: n,
            waits: waits.as_slice(),
            order,
        };
        check_network::<X>(rt, heap, network)?;
    }
    Ok(())
}

// Why the bytes do not open, if they do not.
fn opening_refusal<X: Filed>(bytes: &[u8]) -> Option<Refusal> {
    open::<X>(bytes).err().map(Refusal::from)
}

// The bytes of a file of one event and so many equal waits.
fn repeated(heap: Global, count: u32) -> Result<Writer, Fail> {
    let mut writer = Writer::new(heap);
    writer.heading(1, 1)?;
    let wait = SmallWait {
        start: 0,
        end: 0,
        amount: Pair {
            first: 7,
            second: 0,
        },
    };
    for _ in 0..count {
        writer.wait(wait, 1)?;
    }
    writer.closing()?;
    Ok(writer)
}

// Solves one event with one wait in memory of these lengths; answers the period's count.
fn solved_with(heap: Global, lengths: Lengths) -> Result<Result<u32, Refusal>, Fail> {
    let writer = repeated(heap, 1)?;
    let Ok(opened) = open::<Seconds>(writer.bytes()) else {
        return Err(Fail::new("the file does not open"));
    };
    let mut lent = Lent::new(heap, lengths)?;
    let solved = lent.solve(&opened);
    Ok(solved.map(|period| period.count).map_err(Refusal::from))
}

#[test]
fn the_most_waits_of_a_file(rt: HostRuntime) -> Result<(), Fail> {
    let heap = rt.alloc();
    let most = repeated(heap, 20_000)?;
    assert_eq!(rt; opening_refusal::<Seconds>(most.bytes()), None);
    let over = repeated(heap, 20_001)?;
    let full = Refusal {
        number: 10,
        layer: Layer::File,
        place: 40_001,
    };
    assert_eq!(rt; opening_refusal::<Seconds>(over.bytes()), Some(full));
    Ok(())
}

#[test]
fn slices_too_short_by_one(rt: HostRuntime) -> Result<(), Fail> {
    let heap = rt.alloc();
    let short = Refusal {
        number: 12,
        layer: Layer::Engine,
        place: 1,
    };
    let enough = Lengths {
        rows: 2,
        marks: 2,
        leaves: 1,
        circle: 1,
    };
    assert_eq!(rt; solved_with(heap, enough)?, Ok(1));
    let too_short = [
        Lengths { rows: 1, ..enough },
        Lengths { marks: 1, ..enough },
        Lengths {
            leaves: 0,
            ..enough
        },
        Lengths {
            circle: 0,
            ..enough
        },
    ];
    for lengths in too_short {
        assert_eq!(rt; solved_with(heap, lengths)?, Err(short));
    }
    Ok(())
}

#[test]
fn seconds_agree_with_every_loop(rt: HostRuntime) -> Result<(), Fail> {
    check_many::<Seconds>(&rt, rt.alloc(), Order::Seconds, 1, 3000)
}

#[test]
fn seconds_and_metres_agree_with_every_loop(rt: HostRuntime) -> Result<(), Fail> {
    check_many::<SecondsMetres>(&rt, rt.alloc(), Order::SecondsMetres, 2, 3000)
}

#[test]
fn reversed_seconds_agree_with_every_loop(rt: HostRuntime) -> Result<(), Fail> {
    check_many::<ReversedSeconds>(&rt, rt.alloc(), Order::Reversed, 3, 3000)
}
