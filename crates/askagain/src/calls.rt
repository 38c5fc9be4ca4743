//! The calls of a desk that a script's commands ask for.

use ft_desk::{Board, Desk, Done, Edited, Kept, Latency, Refused, Totals};
use ft_script::{Command, Numbered};

/// What a call that isn't refused answers.
#[derive(Drop)]
pub(crate) enum Answer {
    /// An edit that gives a number, after the word that it prints.
    Number(&'static str, u64, Kept),
    /// An edit that gives a place and a report, after the word that it prints.
    Edited(&'static str, Edited, Kept),
    /// The text of a table or of a lane.
    Text(Vec<u8>),
    /// What a trigger has counted.
    Totals(Totals),
    /// What a trigger has measured.
    Latencies(Vec<Latency>),
}

/// Does what a command asks of a desk, the Nth trace being what `load @N` loads.
pub(crate) fn call<B: Board>(
    desk: &mut Desk<B>,
    traces: &[Vec<u8>],
    command: Command<'_>,
) -> Result<Answer, Refused> {
    match command {
        Command::Load(number) => {
            let done = desk.load(nth_trace(traces, number)?)?;
            Ok(Answer::Number("loaded", done.value, done.kept))
        }
        Command::Insert(line) => Ok(of_event("inserted", desk.insert(line)?)),
        Command::Strike(cpu, line) => Ok(of_event("struck", desk.strike(cpu, line)?)),
        Command::Attach(event, text) => Ok(of_id("attached", desk.attach(event, text)?)),
        Command::Refilter(id, text) => Ok(of_id("refiltered", desk.refilter(id, text)?)),
        Command::About(what, number) => call_about(desk, what, number),
        Command::Nothing | Command::NoForm => Err(Refused::BadCommand),
    }
}

/// Does what is asked of a desk about one number.
fn call_about<B: Board>(
    desk: &mut Desk<B>,
    what: Numbered,
    number: u32,
) -> Result<Answer, Refused> {
    match what {
        Numbered::Unload => {
            let done = desk.unload(number)?;
            Ok(Answer::Number("unloaded", done.value, done.kept))
        }
        Numbered::Remove => Ok(of_id("removed", desk.remove(number)?)),
        Numbered::Hist => Ok(Answer::Text(desk.hist(number)?)),
        Numbered::Totals => Ok(Answer::Totals(desk.totals(number)?)),
        Numbered::Latencies => Ok(Answer::Latencies(desk.latencies(number)?)),
        Numbered::Lane => Ok(Answer::Text(desk.list(number)?)),
    }
}

/// The trace of a number, from 1.
fn nth_trace(traces: &[Vec<u8>], number: u32) -> Result<&[u8], Refused> {
    let index = number.checked_sub(1).ok_or(Refused::NoFile)?;
    match traces.get(index as usize) {
        Some(trace) => Ok(trace.as_slice()),
        None => Err(Refused::NoFile),
    }
}

/// The answer of an edit that gives a trigger's id.
fn of_id(word: &'static str, done: Done<u32>) -> Answer {
    Answer::Number(word, u64::from(done.value), done.kept)
}

/// The answer of an edit of one event.
fn of_event(word: &'static str, done: Done<Edited>) -> Answer {
    Answer::Edited(word, done.value, done.kept)
}
