//! One line of a script.

ghost use Rattle.std.specs.Prelude.{◌≡◌, ◌≢◌, true, map, IfOk, OnOk, Some, None, MatchOption};
ghost use Rattle.ft_answers.specs.Edited.{EditGives};
ghost use Rattle.ft_script.specs.Command.{asked};
ghost use Rattle.ft_script.specs.Script.{asked_by};
ghost use Rattle.ft_script.specs.Refusals.{refused_text};
ghost use Rattle.ft_desk.specs.Output.{outcome, outcome_about, file_at, after_load_file};
ghost use Rattle.ft_desk.specs.inner.Printed.{Prints, PrintsEdit, PrintsAnswer, TellsPlace};

use ft_answers::{Board, Done, Edited, Place, Refused};
use ft_desk_core::Desk;
use ft_script::{Answer, Command, EditValue, Numbered, done_line, read_command, refused_line};
use std::alloc::{AllocError, Global};

/// What a line of a script prints, and whether it was refused.
#[derive(Drop)]
pub struct Performed {
    /// What it prints: whole lines, or nothing.
    pub text: Vec<u8>,
    /// Whether it was refused.
    pub refused: bool,
}

/// Does what a line of a script asks of a desk. The line has no line break, and the Nth file is what
/// `load @N` loads.
///
/// A line that is refused prints its refusal, and the desk holds what it held. Fails for memory only,
/// which has no line of its own; then the edit may have been made, and no clause says what is held.
pub fn perform<B: Board>(
    desk: &mut Desk<B>,
    alloc: Global,
    files: &[Vec<u8>],
    line: &[u8],
) -> Result<Performed, AllocError>
    ensures text { IfOk result (λ done. done.text.items
        ≡ (outcome (map (λ f. f.items) files.now) desk.old.base (asked_by line.now)).text) }
    ensures refused { IfOk result (λ done. done.refused
        ≡ (outcome (map (λ f. f.items) files.now) desk.old.base (asked_by line.now)).refused) }
    ensures base { IfOk result (λ _. desk.new.base
        ≡ (outcome (map (λ f. f.items) files.now) desk.old.base (asked_by line.now)).base) }
{
    obey(desk, alloc, files, read_command(line))
}

/// Performs a command.
#[tactic(auto, unfolding(crate::specs::Output::outcome))]
fn obey<B: Board>(
    desk: &mut Desk<B>,
    alloc: Global,
    files: &[Vec<u8>],
    command: Command<'_>,
) -> Result<Performed, AllocError>
    ensures { Prints (outcome (map (λ f. f.items) files.now) desk.old.base (asked command.entry))
        desk.new.base result }
{
    match command {
        Command::Nothing => Ok(Performed {
            text: Vec::new(alloc),
            refused: false,
        }),
        Command::Load(number) => print_edit(alloc, b"loaded ", load_file(desk, files, number)),
        Command::Insert(line) => print_edit(alloc, b"inserted ", without_report(desk.insert(line))),
        Command::Strike(cpu, line) => print_edit(
            alloc,
            b"struck ",
            without_report(desk.strike(cpu, line)),
        ),
        Command::Attach(event, text) => print_edit(alloc, b"attached ", desk.attach(event, text)),
        Command::Refilter(id, text) => print_edit(alloc, b"refiltered ", desk.refilter(id, text)),
        Command::About(what, number) => about(desk, alloc, what, number),
        Command::NoForm => print_refusal(alloc, Refused::BadCommand),
    }
}

/// Performs a command about one number: a lane's CPU, or a trigger's id.
#[tactic(auto, unfolding(crate::specs::Output::outcome_about))]
fn about<B: Board>(
    desk: &mut Desk<B>,
    alloc: Global,
    what: Numbered,
    number: u32,
) -> Result<Performed, AllocError>
    ensures { Prints (outcome_about desk.old.base what number) desk.new.base result }
{
    match what {
        Numbered::Unload => print_edit(alloc, b"unloaded ", desk.unload(number)),
        Numbered::Remove => print_edit(alloc, b"removed ", desk.remove(number)),
        Numbered::Hist => print_answer(alloc, desk.hist(number)),
        Numbered::Totals => print_answer(alloc, desk.totals(number)),
        Numbered::Latencies => print_answer(alloc, desk.latencies(number)),
        Numbered::Lane => print_answer(alloc, desk.list(number)),
    }
}

/// Loads the trace file of a number, from 1.
#[tactic(auto, unfolding(crate::specs::Output::after_load_file))]
fn load_file<B: Board>(
    desk: &mut Desk<B>,
    files: &[Vec<u8>],
    number: u32,
) -> Result<Done<u64>, Refused>
    ensures { EditGives (λ count. count)
        (after_load_file (map (λ f. f.items) files.now) desk.old.base number)
        desk.old desk.new result }
{
    match nth_file(files, number) {
        Some(text) => desk.load(text),
        None => Err(Refused::NoFile),
    }
}

/// The text of the file of a number, from 1.
fn nth_file(files: &[Vec<u8>], number: u32) -> Option<&[u8]>
    ensures { MatchOption result (file_at (map (λ f. f.items) files.now) number ≡ None)
        (λ text. file_at (map (λ f. f.items) files.now) number ≡ Some text.now) }
{
    let index = number.checked_sub(1)?;
    files.get(index as usize).map(|file| file.as_slice())
}

/// An edit of one event with only its place, since no script prints a report.
fn without_report(edit: Result<Done<Edited>, Refused>) -> Result<Done<Place>, Refused>
    ensures { TellsPlace edit result }
{
    let done = edit?;
    Ok(Done {
        value: done.value.place,
        kept: done.kept,
    })
}

/// Prints an edit: its word and its value, or its refusal.
fn print_edit<V: EditValue>(
    alloc: Global,
    word: &[u8],
    edit: Result<Done<V>, Refused>,
) -> Result<Performed, AllocError>
    ensures { PrintsEdit V.shown word.now edit result }
{
    match edit {
        Ok(done) => Ok(Performed {
            text: done_line(alloc, word, done.value)?,
            refused: false,
        }),
        Err(reason) => print_refusal(alloc, reason),
    }
}

/// Prints an answer: its lines, or its refusal.
fn print_answer<A: Answer>(
    alloc: Global,
    answer: Result<A, Refused>,
) -> Result<Performed, AllocError>
    ensures { PrintsAnswer A.seen A.shown answer result }
{
    match answer {
        Ok(answer) => Ok(Performed {
            text: answer.into_lines(alloc)?,
            refused: false,
        }),
        Err(reason) => print_refusal(alloc, reason),
    }
}

/// Prints a refusal. Out of memory has no line: it is a failure, as it is if there is no memory for
/// the text.
pub fn print_refusal(alloc: Global, reason: Refused) -> Result<Performed, AllocError>
    ensures text { IfOk result (λ done. done.text.items ≡ refused_text reason) }
    ensures refused { IfOk result (λ done. done.refused ≡ true) }
    ensures memory { OnOk result (reason ≢ Refused.Memory) }
{
    if reason == Refused::Memory {
        return Err(AllocError);
    }
    Ok(Performed {
        text: refused_line(alloc, reason)?,
        refused: true,
    })
}
