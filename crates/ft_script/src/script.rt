//! What a line of the script asks for.

ghost use Rattle.std.specs.Prelude.{◌≡◌, ◌==◌, ◌||◌, reverse, slice_index, option_map};
ghost use Rattle.std.specs.List.{list_all, prefix_len};
ghost use Rattle.ft_script.specs.Command.{asked};
ghost use Rattle.ft_script.specs.Script.{asked_by, insert_text, command_by_word, numbered_by, about, is_space, is_in_word, drop_while, trimmed, first_word, after_word, command_number, load_in, strike_in, strike_of, attach_in, filter_in, refilter_in};

use ft_fields::Name;
use ft_text::{is_same, number_within};
use memchr::memchr;

/// The most bytes of a script line: twice those of a trace line, so that the longest one has room
/// after `insert`. A longer line has no form, so nobody has to keep it whole.
pub const LINE_LIMIT: usize = 8192;

/// The most digits of a number: as many as `u32::MAX` has.
const MOST_DIGITS: usize = 10;

/// What a line of the script asks for.
#[derive(Clone, Copy, Debug, PartialEq, Eq)]
pub enum Command<'a> {
    /// Nothing: the line is blank or a comment.
    Nothing,
    /// To load the trace file of this number, from 1.
    Load(u32),
    /// To insert the event of this trace line.
    Insert(&'a [u8]),
    /// To strike the event of this CPU's line of this number.
    Strike(u32, u32),
    /// To attach the trigger of this text to an event.
    Attach(Name, &'a [u8]),
    /// To give the trigger with this id the filter of this text, or none.
    Refilter(u32, Option<&'a [u8]>),
    /// What is asked about this number.
    About(Numbered, u32),
    /// No command has the line's form.
    NoForm,
}

/// What may be asked about one number: the CPU of a lane, or the id of a trigger.
#[derive(Clone, Copy, Debug, PartialEq, Eq)]
pub enum Numbered {
    /// To unload the lane.
    Unload,
    /// To remove the trigger.
    Remove,
    /// To print the trigger's table.
    Hist,
    /// To print the trigger's totals.
    Totals,
    /// To print the trigger's latencies.
    Latencies,
    /// To print the lane.
    Lane,
}

/// Reads a line of the script.
#[tactic(auto, unfolding(crate::specs::Script::asked_by))]
pub fn read_command(line: &[u8]) -> Command<'_>
    ensures { asked result ≡ asked_by line.now }
{
    if line.len() > LINE_LIMIT {
        return Command::NoForm;
    }
    if is_silent(line) {
        return Command::Nothing;
    }
    match insert_text(line) {
        Some(text) => Command::Insert(text),
        None => command_by_word(trim(line)),
    }
}

/// The trace line after `insert` and one space, with all its bytes, if the line begins with these.
#[tactic(auto, unfolding(crate::specs::Script::insert_text))]
fn insert_text(line: &[u8]) -> Option<&[u8]>
    ensures { option_map (λ text. text.now) result ≡ insert_text line.now }
{
    match line.strip_prefix(b"insert") {
        Some([b' ', text @ ..]) => Some(text),
        Some([]) => Some(&[]),
        _ => None,
    }
}

/// A command by its first word.
#[tactic(auto, unfolding(crate::specs::Script::command_by_word))]
fn command_by_word(text: &[u8]) -> Command<'_>
    ensures { asked result ≡ command_by_word text.now }
{
    let (word, rest) = split_word(text);
    if is_same(word, b"load") {
        load(rest)
    } else if is_same(word, b"strike") {
        strike(rest)
    } else if is_same(word, b"attach") {
        attach(rest)
    } else if is_same(word, b"filter") {
        filter(rest)
    } else {
        about(numbered_by(word), number(rest))
    }
}

/// The command about a number that a word names.
fn numbered_by(word: &[u8]) -> Option<Numbered>
    ensures { result ≡ numbered_by word.now }
{
    if is_same(word, b"unload") {
        Some(Numbered::Unload)
    } else if is_same(word, b"remove") {
        Some(Numbered::Remove)
    } else if is_same(word, b"hist") {
        Some(Numbered::Hist)
    } else if is_same(word, b"totals") {
        Some(Numbered::Totals)
    } else if is_same(word, b"lat") {
        Some(Numbered::Latencies)
    } else if is_same(word, b"list") {
        Some(Numbered::Lane)
    } else {
        None
    }
}

/// A command about one number, if the word names one and the number is valid.
fn about<'a>(what: Option<Numbered>, number: Option<u32>) -> Command<'a>
    ensures { asked result ≡ about what number }
{
    match (what, number) {
        (Some(what), Some(number)) => Command::About(what, number),
        _ => Command::NoForm,
    }
}

/// Whether a line has only spaces, or is a comment.
fn is_silent(line: &[u8]) -> bool
    ensures { result ≡ (list_all is_space line.now || slice_index line.now 0 == 35) }
{
    is_blank(line) || line.first() == Some(&b'#')
}

/// Whether a line has only spaces.
fn is_blank(line: &[u8]) -> bool
    ensures { result ≡ list_all is_space line.now }
{
    line.iter().all(|byte| *byte == b' ')
}

/// A text without spaces at both ends.
#[tactic(auto, unfolding(crate::specs::Script::trimmed))]
fn trim(text: &[u8]) -> &[u8]
    ensures { result.now ≡ trimmed text.now }
{
    trim_end(trim_start(text))
}

/// A text without the spaces in front.
fn trim_start(text: &[u8]) -> &[u8]
    ensures { result.now ≡ drop_while is_space text.now }
{
    let mut rest = text;
    while let [b' ', behind @ ..] = rest {
        rest = behind;
    }
    rest
}

/// A text without the spaces at its end.
fn trim_end(text: &[u8]) -> &[u8]
    ensures { result.now ≡ reverse (drop_while is_space (reverse text.now)) }
{
    let mut rest = text;
    while let [before @ .., b' '] = rest {
        rest = before;
    }
    rest
}

/// The first word of a text that begins with no space, and what follows the word and the spaces
/// after it.
#[tactic(auto, unfolding(crate::specs::Script::first_word, crate::specs::Script::after_word))]
fn split_word(text: &[u8]) -> (&[u8], &[u8])
    ensures word { result.0.now ≡ first_word text.now }
    ensures rest { result.1.now ≡ after_word text.now }
{
    let (word, rest) = text.split_at(word_len(text));
    (word, trim_start(rest))
}

/// How many bytes are before the first space.
fn word_len(text: &[u8]) -> usize
    ensures { result ≡ prefix_len is_in_word text.now }
{
    memchr(b' ', text).unwrap_or(text.len())
}

/// After `load`: `@` and the number of a trace file.
#[tactic(auto, unfolding(crate::specs::Script::load_in))]
fn load(text: &[u8]) -> Command<'_>
    ensures { asked result ≡ load_in text.now }
{
    match text.strip_prefix(b"@") {
        Some(digits) => match number(digits) {
            Some(number) => Command::Load(number),
            None => Command::NoForm,
        },
        None => Command::NoForm,
    }
}

/// After `attach`: an event's name, and a trigger's text.
#[tactic(auto, unfolding(crate::specs::Script::attach_in))]
fn attach(text: &[u8]) -> Command<'_>
    ensures { asked result ≡ attach_in text.now }
{
    let (word, trigger) = split_word(text);
    match Name::called(word) {
        Some(name) => Command::Attach(name, trigger),
        None => Command::NoForm,
    }
}

/// After `strike`: a CPU's number, `:` and a line's number.
#[tactic(auto, unfolding(crate::specs::Script::strike_in))]
fn strike(text: &[u8]) -> Command<'_>
    ensures { asked result ≡ strike_in text.now }
{
    match memchr(b':', text) {
        Some(colon) => strike_of(number(&text[..colon]), number(&text[colon + 1..])),
        None => Command::NoForm,
    }
}

/// The event to strike, if its CPU and its line are numbers.
fn strike_of<'a>(cpu: Option<u32>, line: Option<u32>) -> Command<'a>
    ensures { asked result ≡ strike_of cpu line }
{
    match (cpu, line) {
        (Some(cpu), Some(line)) => Command::Strike(cpu, line),
        _ => Command::NoForm,
    }
}

/// After `filter`: a trigger's id, and its new filter or none.
#[tactic(auto, unfolding(crate::specs::Script::filter_in))]
fn filter(text: &[u8]) -> Command<'_>
    ensures { asked result ≡ filter_in text.now }
{
    let (word, rest) = split_word(text);
    match number(word) {
        Some(id) => refilter(id, rest),
        None => Command::NoForm,
    }
}

/// After a trigger's id: `if` and a filter's text, or only `none`.
#[tactic(auto, unfolding(crate::specs::Script::refilter_in))]
fn refilter(id: u32, text: &[u8]) -> Command<'_>
    ensures { asked result ≡ refilter_in id text.now }
{
    match text {
        b"none" => Command::Refilter(id, None),
        _ => match split_word(text) {
            (b"if", filter) => Command::Refilter(id, Some(filter)),
            _ => Command::NoForm,
        },
    }
}

/// A number of 1 to 10 digits, if it is at most 4,294,967,295.
#[tactic(auto, unfolding(crate::specs::Script::command_number, ft_text::specs::Digits::number_within))]
fn number(text: &[u8]) -> Option<u32>
    ensures { result ≡ command_number text.now }
{
    if text.is_empty() || text.len() > MOST_DIGITS {
        return None;
    }
    number_within(text, u32::MAX)
}
