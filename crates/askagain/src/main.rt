//! `askagain SCRIPT [TRACE]..`: what a desk over the kept board answers if growths of its memory
//! are refused in the middle of a script. A call that runs out of memory is made once more at once.
//!
//! A line follows each call's text: `-- now` or `-- later` after an accepted edit, else `-- none`;
//! and then ` deferred` or ` kept`, as the desk is. The text is what the script's run prints,
//! except that a refusal has only its number, and out of memory is `memory`. The report of an
//! accepted insert or strike stands before that line: `-- rows` with ` ID:PART,..` for each row, or
//! `-- no report`.
//!
//! One byte goes to standard error before each first call and one after it, so that whoever refuses
//! growths, as `tests/program/refuse_growth.c` does, knows which are those of the call.
//!
//! Three other programs for tests are in it, since a program costs a proof of all that it reaches:
//! `askagain plain SCRIPT [TRACE]..` is `histdesk`, and `askagain watch-plain SCRIPT [TRACE]..` is
//! `histwatch`, each over the board that keeps no tables; and `askagain rows FOLDER..` reports
//! whether worked examples hold.
//!
//! The exit status is 1 if a worked example doesn't hold, or if `plain` refuses a command; 2 after
//! a fault, which goes to standard error; and else 0.
#![tactic(auto)]

ghost use Rattle.std.specs.Prelude.{◌≡◌, ◌≤◌, ◌↔◌, IsTrue};
ghost use Rattle.std.specs.Result.{IsOkAnd, IsErr};

mod calls;
mod plain;
mod rows;

use crate::calls::{Answer, call};
use crate::plain::{run_plain, watch_plain};
use crate::rows::check_rows;
use ft_board::KeptBoard;
use ft_desk::{Board, Changed, Desk, Edited, Kept, Latency, Refused};
use ft_fields::Part;
use ft_script::{Command, read_command};
use std::process::ExitCode;
use std::rt::{Env, Files};
use std::{env, fs, io};

/// The first argument if rows are checked.
const ROWS: &str = "rows";

/// The first argument if a script is run over the board that keeps no tables.
const PLAIN: &str = "plain";

/// The first argument if a script is watched over that board.
const WATCH_PLAIN: &str = "watch-plain";

fn main(rt: HostRuntime) -> ExitCode {
    ExitCode::from(exit_status(&rt, run_words(&rt)))
}

/// The exit status: whether what was checked holds, or each command was accepted. A fault is printed.
fn exit_status<P: Eprint>(rt: &P, ended: io::Result<bool>) -> u8
    ensures holds { (result ≡ 0) ↔ IsOkAnd ended IsTrue }
    ensures fault { (result ≡ 2) ↔ IsErr ended }
    ensures limit { result ≤ 2 }
{
    match ended {
        Ok(true) => 0,
        Ok(false) => 1,
        Err(error) => {
            let _unheeded = eprintln!(rt; "askagain: {error}");
            2
        }
    }
}

/// Does what the program's arguments say. False if rows are checked, and some row doesn't hold, or
/// if a script is run over the board that keeps no tables, and a command is refused.
fn run_words<P: Env + Files + Print + Eprint + AllocGlobal>(rt: &P) -> io::Result<bool> {
    let words: Vec<String> = env::args(rt)?.skip(1).collect(rt.alloc())?;
    match words.as_slice().split_first() {
        Some((first, folders)) if first.as_str() == ROWS => Ok(check_rows(rt, folders)?.all_hold()),
        Some((first, paths)) if first.as_str() == PLAIN => run_files(rt, Way::Plain, paths),
        Some((first, paths)) if first.as_str() == WATCH_PLAIN => {
            run_files(rt, Way::WatchPlain, paths)
        }
        _ => run_files(rt, Way::Ask, words.as_slice()),
    }
}

/// What is done with a script.
#[derive(Drop)]
enum Way {
    /// It is run over the board that keeps no tables.
    Plain,
    /// It is watched over that board.
    WatchPlain,
    /// A desk over the board that keeps tables is asked, and asked again.
    Ask,
}

/// Does what the first of these files says; the others are what it may load.
fn run_files<P: Files + Print + Eprint + AllocGlobal>(
    rt: &P,
    way: Way,
    paths: &[String],
) -> io::Result<bool> {
    let files = read_files(rt, paths)?;
    let Some((script, traces)) = files.as_slice().split_first() else {
        return Err(io::Error::from(io::ErrorKind::InvalidInput));
    };
    match way {
        Way::Plain => return run_plain(rt, script.as_slice(), traces),
        Way::WatchPlain => watch_plain(rt, script.as_slice(), traces)?,
        Way::Ask => {
            let desk = Desk::new(rt.alloc(), KeptBoard::new(rt.alloc()));
            ask_lines(rt, desk, script.as_slice(), traces)?;
        }
    }
    Ok(true)
}

/// Asks a desk what the lines of a script say.
fn ask_lines<B: Board, P: Print + Eprint>(
    rt: &P,
    mut desk: Desk<B>,
    script: &[u8],
    traces: &[Vec<u8>],
) -> io::Result<()> {
    for line in script.split(|byte| *byte == b'\n') {
        match read_command(line) {
            Command::Nothing => {}
            command => ask(rt, &mut desk, traces, command)?,
        }
    }
    Ok(())
}

/// The files at these paths, each read whole.
fn read_files<P: Files + AllocGlobal>(rt: &P, paths: &[String]) -> io::Result<Vec<Vec<u8>>> {
    let mut files = Vec::new(rt.alloc());
    for path in paths {
        files.push(fs::read(rt, path.as_str())?)?;
    }
    Ok(files)
}

/// Makes a call, and makes it once more if it runs out of memory, and prints what each answers.
fn ask<B: Board, P: Print + Eprint>(
    rt: &P,
    desk: &mut Desk<B>,
    traces: &[Vec<u8>],
    command: Command<'_>,
) -> io::Result<()> {
    eprint!(rt; ".")?;
    let answer = call(desk, traces, command);
    eprint!(rt; ".")?;
    print_answer(rt, &answer, desk.is_deferred())?;
    match answer {
        Err(Refused::Memory) => {
            let answer = call(desk, traces, command);
            print_answer(rt, &answer, desk.is_deferred())
        }
        _ => Ok(()),
    }
}

/// Prints what a call answered, and how the desk is then.
fn print_answer<P: Print>(
    rt: &P,
    answer: &Result<Answer, Refused>,
    deferred: bool,
) -> io::Result<()> {
    print_text(rt, answer)?;
    if let Ok(Answer::Edited(_, edited, _)) = answer {
        print_report(rt, edited)?;
    }
    let kept = match answer {
        Ok(Answer::Number(_, _, Kept::Now) | Answer::Edited(_, _, Kept::Now)) => "now",
        Ok(Answer::Number(_, _, Kept::Later) | Answer::Edited(_, _, Kept::Later)) => "later",
        _ => "none",
    };
    println!(rt; "-- {kept} {}", if deferred { "deferred" } else { "kept" })
}

/// Prints what a call answered.
fn print_text<P: Print>(rt: &P, answer: &Result<Answer, Refused>) -> io::Result<()> {
    match answer {
        Ok(Answer::Number(word, number, _)) => println!(rt; "{word} {number}"),
        Ok(Answer::Edited(word, edited, _)) => {
            println!(rt; "{word} {}:{}", edited.place.cpu, edited.place.line)
        }
        Ok(Answer::Text(text)) => Print::write_all(rt, text.as_slice()),
        Ok(Answer::Totals(totals)) => {
            println!(rt;
                "hits {} entries {} dropped {}",
                totals.hits, totals.entries, totals.dropped
            )
        }
        Ok(Answer::Latencies(latencies)) => print_latencies(rt, latencies.as_slice()),
        Err(Refused::Memory) => println!(rt; "memory"),
        Err(reason) => println!(rt; "refused {}", reason.number()),
    }
}

/// Prints which rows an edit may have changed.
fn print_report<P: Print>(rt: &P, edited: &Edited) -> io::Result<()> {
    let Some(rows) = &edited.report else {
        return println!(rt; "-- no report");
    };
    print!(rt; "-- rows")?;
    for row in rows {
        print_row(rt, row)?;
    }
    println!(rt; "")
}

/// Prints a row: its trigger's id and the parts of its key.
fn print_row<P: Print>(rt: &P, row: &Changed) -> io::Result<()> {
    print!(rt; " {}:", row.id)?;
    for number in 0..3 {
        let Some(part) = row.key.part(number) else {
            return Ok(());
        };
        if number > 0 {
            print!(rt; ",")?;
        }
        print_part(rt, part)?;
    }
    Ok(())
}

/// Prints a part of a key, a number in decimal.
fn print_part<P: Print>(rt: &P, part: Part) -> io::Result<()> {
    match part {
        Part::Num(number) => print!(rt; "{number}"),
        Part::Log2(power) => print!(rt; "{power}"),
        Part::Bucket(least) => print!(rt; "{least}"),
        Part::Text(text) => Print::write_all(rt, text.bytes()),
    }
}

/// Prints latencies, a line each, and how many they are.
fn print_latencies<P: Print>(rt: &P, latencies: &[Latency]) -> io::Result<()> {
    for latency in latencies {
        let (saved, read) = (latency.saved, latency.read);
        print!(rt; "{}:{} -> ", saved.cpu, saved.line)?;
        println!(rt; "{}:{}: {} us", read.cpu, read.line, latency.micros)?;
    }
    println!(rt; "Latencies: {}", latencies.len())
}
