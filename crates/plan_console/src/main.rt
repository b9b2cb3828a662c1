//! A planner's console: reads calls as lines of text from standard input, makes them on one plan, and prints each answer.

#![tactic(auto)]

mod command;
mod printing;

use crate::command::{Command, Opening, Unreadable, read};
use crate::printing::Told;
use amount::filed::{Filed, FiledMeasure};
use amount::reversed::ReversedSeconds;
use amount::seconds::Seconds;
use amount::seconds_metres::SecondsMetres;
use amount::spanned::Spanned;
use engine::{Space, Workspace};
use network::{MOST_WAITS, Wait};
use plan::AnyPlan;
use plan::applying::{apply_filed, open_plan};
use plan::calls::{Answer, FiledCall};
use plan::fault::event_count_will_do;
use refusal::Refusal;
use std::io::{BufRead, BufReader, Split, Stdin};
use std::{fs, io};

// The lines of standard input.
type Lines = Split<BufReader<Stdin>>;

// Tells of a line, with its number from 1, why it cannot be read.
fn print_unreadable(rt: &HostRuntime, number: u64, what: Unreadable) -> io::Result<()> {
    println!(rt; "unreadable line {number}: {what}")
}

// What a line asks for, if anything. A line that cannot be read, or whose file cannot, is told of.
fn hear<X: Filed>(
    rt: &HostRuntime,
    line: &[u8],
    number: u64,
) -> io::Result<Option<Command<X, Vec<u8>>>> {
    match read::<Command<X, &str>>(line) {
        Ok(None) => Ok(None),
        Ok(Some(Command::Make(call))) => Ok(Some(Command::Make(call))),
        Ok(Some(Command::TakeIn(name))) => match fs::read(rt, name) {
            Ok(bytes) => Ok(Some(Command::TakeIn(bytes))),
            Err(_) => {
                println!(rt; "unreadable line {number}: the file {name} cannot be read")?;
                Ok(None)
            }
        },
        Err(what) => {
            print_unreadable(rt, number, what)?;
            Ok(None)
        }
    }
}

// Does what is asked of the plan: the plan after it, and the answer.
fn make<'a, X: Filed>(
    plan: AnyPlan<'a, X>,
    command: &Command<X, Vec<u8>>,
    space: &mut Workspace<'_, X>,
) -> (AnyPlan<'a, X>, Answer<X>) {
    let call = match command {
        Command::Make(call) => FiledCall::Other(*call),
        Command::TakeIn(bytes) => FiledCall::TakeIn(bytes.as_slice()),
    };
    apply_filed(plan, &call, space)
}

// A plan kept from its opening, on the line of this number, to the end of input.
fn keep<X: Filed>(rt: &HostRuntime, lines: Lines, opened_at: u64, n: u32) -> io::Result<()> {
    let heap = rt.alloc();
    let events = match event_count_will_do(n) {
        Ok(()) => {
            rt.println("done")?;
            n
        }
        Err(fault) => {
            rt.println(Refusal::from(fault))?;
            0
        }
    };
    let mut space = Space::<X>::new(heap, events)?;
    let blank = Wait::<Spanned<X>>::default();
    let mut memory = vec![in heap; blank; MOST_WAITS as usize]?;
    let mut plan = open_plan(n, memory.as_mut_slice());
    for (after, line) in lines.enumerate() {
        let number = opened_at.saturating_add(1).saturating_add(after as u64);
        let Some(command) = hear::<X>(rt, line?.as_slice(), number)? else {
            continue;
        };
        let mut lent = space.lend();
        let (after, answer) = make(plan, &command, &mut lent);
        plan = after;
        let Workspace { leaves, circle, .. } = lent;
        rt.println(Told {
            answer,
            circle,
            leaves,
        })?;
    }
    Ok(())
}

// Reads lines until one opens a plan, and answers it with its number from 1; None at the end of input.
fn opening(rt: &HostRuntime, lines: &mut Lines) -> io::Result<Option<(u64, Opening)>> {
    for (before, line) in lines.enumerate() {
        let number = (before as u64).saturating_add(1);
        match read::<Opening>(line?.as_slice()) {
            Ok(Some(opening)) => return Ok(Some((number, opening))),
            Ok(None) => {}
            Err(what) => print_unreadable(rt, number, what)?,
        }
    }
    Ok(None)
}

fn main(rt: HostRuntime) -> io::Result<()> {
    let heap = rt.alloc();
    let mut lines = BufReader::new(heap, rt.stdin())?.split(heap, b'\n');
    let Some((number, opening)) = opening(&rt, &mut lines)? else {
        return Ok(());
    };
    let n = opening.events;
    // Each arm is a function at another type, so that no table of them can be made.
    match opening.measure {
        FiledMeasure::Seconds => keep::<Seconds>(&rt, lines, number, n),
        FiledMeasure::SecondsMetres => keep::<SecondsMetres>(&rt, lines, number, n),
        FiledMeasure::ReversedSeconds => keep::<ReversedSeconds>(&rt, lines, number, n),
    }
}
