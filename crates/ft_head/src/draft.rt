//! What has been read of a trigger's head, and what one more part adds to it.

ghost use Rattle.std.specs.Prelude.{◌≡◌, ◌+◌, ◌<◌, ◌^◌, ◌∷◌, [], ◌≤◌, length, Ok, Some, None, IfSome, IfOk, codes, option_map, ◌==◌, IfErr, if◌then◌else◌};
ghost use Rattle.std.specs.Option.{is_some};
ghost use Rattle.std.specs.List.{list_any, find, starts_with};
ghost use Rattle.std.specs.Str.{bytes_eq};
ghost use Rattle.ft_fields.specs.declared.event.Name.{Name};
ghost use Rattle.ft_hist.specs.declared.fault.TriggerFault.TheVariants.{Syntax, LeftOut, Duplicate};
ghost use Rattle.ft_head.specs.Draft.{empty_draft, is_part_left_out, labels, with_kind, with_named, with_variable, with_handed, with_onmatch, with_other, with_part, parts_from, size_of, variable_stamp, var_of, is_taken, reads_itself, Since};
ghost use Rattle.ft_text.specs.Items.{is_name, pieces};
ghost use Rattle.ft_hist.specs.Hit.{same_name};
ghost use Rattle.ft_head.specs.Given.{Gives};
ghost use Rattle.ft_head.specs.inner.Leaving.{Leaves};
ghost use Rattle.ft_head.specs.inner.Stamps.{stamp_seen};

use crate::lists::{keys_of, sort_of, value_words};
use crate::onmatch::{Action, Handed, handed_of};
use ft_fields::{Name, field_named};
use ft_hist::{KeyItem, Label, TriggerFault, Var};
use ft_text::{Piece, Pieces, Word, is_name, is_same, name_at, number_in};
use std::alloc::Global;
use std::marker::Model;

/// The value of a variable that is saved.
const SAVED: &[u8] = b"common_timestamp.usecs";

/// What stands in front of the name that is read.
const SINCE: &[u8] = b"common_timestamp.usecs-$";

/// The least size.
const LEAST_SIZE: u32 = 128;

/// The greatest size.
const MOST_SIZE: u32 = 131_072;

/// What has been read so far of a trigger's head. A list that has not been read yet is `None`.
///
/// Contracts see a record of the same, with its names as lists of bytes.
#[derive(Drop)]
pub struct Draft<'a> {
    /// Its key items.
    pub keys: Option<Vec<KeyItem>>,
    /// The words of its values.
    pub values: Option<Vec<Word<'a>>>,
    /// The words of its sort items.
    pub sort: Option<Vec<Word<'a>>>,
    /// Its size, a power of 2.
    pub size: Option<u32>,
    /// Its variable.
    pub variable: Option<Var>,
    /// What events are made of.
    pub onmatch: Option<Action<'a>>,
}

/// The kinds of parts, except for variables. What a part adds to a draft is defined kind by kind.
#[derive(Clone, Copy)]
pub enum Kind {
    /// `keys=`
    Keys,
    /// `values=`
    Values,
    /// `sort=`
    Sort,
    /// `size=`
    Size,
}

/// The value of a variable's part.
#[derive(Clone, Copy)]
enum Stamp<'a> {
    /// The stamp of the event is saved.
    Saved,
    /// It is the time since the stamp that this name saves.
    Since(&'a [u8]),
}

impl<'a> Model for Draft<'a> {
    ghost use Rattle.ft_head.specs.Draft.{Draft};
    ghost use Rattle.ft_head.specs.Drafts.{draft_of, IsFit};

    ghost Value = { Draft };

    ghost view = { draft_of };

    ghost invariant = { IsFit };
}

impl<'a> Draft<'a> {
    /// Nothing yet.
    fn blank() -> Draft<'a>
        ensures { result ≡ empty_draft }
    {
        Draft {
            keys: None,
            values: None,
            sort: None,
            size: None,
            variable: None,
            onmatch: None,
        }
    }

    /// Adds one more part of the head.
    #[tactic(auto, unfolding(crate::specs::Draft::with_part))]
    fn add_part(&mut self, alloc: Global, event: Name, part: &Piece<'a>) -> Result<(), TriggerFault>
        ensures { Leaves (with_part event self.old part.now) self.new result }
    {
        if is_part_left_out(part.bytes()) {
            return Err(TriggerFault::LeftOut(part.place()));
        }
        match kind_of(part.bytes()) {
            Some((len, kind)) => self.add_kind(alloc, event, kind, &part.behind(len)),
            None => self.add_other(alloc, event, part),
        }
    }

    /// Adds a part of a kind, by its list or number.
    fn add_kind(
        &mut self,
        alloc: Global,
        event: Name,
        kind: Kind,
        text: &Piece<'a>,
    ) -> Result<(), TriggerFault>
        ensures { Leaves (with_kind event self.old kind text.now.place text.now.bytes)
            self.new result }
    {
        match kind {
            Kind::Keys => self.add_keys(alloc, event, text),
            Kind::Values => self.add_values(alloc, event, text),
            Kind::Sort => self.add_sort(alloc, text),
            Kind::Size => self.add_size(text),
        }
    }

    /// Adds the list of keys.
    #[tactic(auto, unfolding(crate::specs::Draft::with_kind))]
    fn add_keys(&mut self, alloc: Global, event: Name, list: &Piece<'_>) -> Result<(), TriggerFault>
        ensures { Leaves (with_kind event self.old Kind.Keys list.now.place list.now.bytes)
            self.new result }
    {
        if self.keys.is_some() {
            return Err(TriggerFault::Duplicate);
        }
        self.keys = Some(keys_of(alloc, event, list)?);
        Ok(())
    }

    /// Adds the list of values.
    #[tactic(auto, unfolding(crate::specs::Draft::with_kind))]
    fn add_values(
        &mut self,
        alloc: Global,
        event: Name,
        list: &Piece<'a>,
    ) -> Result<(), TriggerFault>
        ensures { Leaves (with_kind event self.old Kind.Values list.now.place list.now.bytes)
            self.new result }
    {
        if self.values.is_some() {
            return Err(TriggerFault::Duplicate);
        }
        self.values = Some(value_words(alloc, event, list)?);
        Ok(())
    }

    /// Adds the list of sort items.
    #[tactic(auto, unfolding(crate::specs::Draft::with_kind))]
    fn add_sort(&mut self, alloc: Global, list: &Piece<'a>) -> Result<(), TriggerFault>
        ensures { (event : Name) →
            Leaves (with_kind event self.old Kind.Sort list.now.place list.now.bytes)
            self.new result }
    {
        if self.sort.is_some() {
            return Err(TriggerFault::Duplicate);
        }
        self.sort = Some(sort_of(alloc, list)?);
        Ok(())
    }

    /// Adds the size.
    #[tactic(auto, unfolding(crate::specs::Draft::with_kind))]
    fn add_size(&mut self, text: &Piece<'_>) -> Result<(), TriggerFault>
        ensures { (event : Name) →
            Leaves (with_kind event self.old Kind.Size text.now.place text.now.bytes)
            self.new result }
    {
        if self.size.is_some() {
            return Err(TriggerFault::Duplicate);
        }
        match size_of(text.bytes()) {
            Some(size) => {
                self.size = Some(size);
                Ok(())
            }
            None => Err(TriggerFault::BadSize),
        }
    }

    /// Adds a part of no kind.
    fn add_other(
        &mut self,
        alloc: Global,
        event: Name,
        part: &Piece<'a>,
    ) -> Result<(), TriggerFault>
        ensures { Leaves (with_other event self.old part.now) self.new result }
    {
        if part.bytes().starts_with(b"onmatch(") {
            return self.add_onmatch(event, part);
        }
        self.add_variable(alloc, event, part)
    }

    /// Adds what events are made of.
    #[tactic(auto, unfolding(crate::specs::Draft::with_onmatch))]
    fn add_onmatch(&mut self, event: Name, part: &Piece<'a>) -> Result<(), TriggerFault>
        ensures { Leaves (with_onmatch event self.old part.now) self.new result }
    {
        if is_made(event) {
            return Err(TriggerFault::LeftOut(part.place()));
        }
        match handed_of(part.bytes()) {
            Some(words) => self.add_handed(event, &words),
            None => Err(TriggerFault::LeftOut(part.place())),
        }
    }

    /// Adds what events are made of, by the words of its part.
    fn add_handed(&mut self, event: Name, words: &Handed<'a>) -> Result<(), TriggerFault>
        ensures { Leaves (with_handed event self.old words.now) self.new result }
    {
        if self.onmatch.is_some() {
            return Err(TriggerFault::Duplicate);
        }
        self.onmatch = Some(words.action(event)?);
        Ok(())
    }

    /// Adds a part that is a name, `=` and a value.
    #[tactic(auto, unfolding(crate::specs::Draft::with_variable))]
    fn add_variable(
        &mut self,
        alloc: Global,
        event: Name,
        part: &Piece<'_>,
    ) -> Result<(), TriggerFault>
        ensures { Leaves (with_variable event self.old part.now) self.new result }
    {
        match name_at(part.bytes()) {
            Some((name, behind)) => match behind.strip_prefix(b"=") {
                Some(value) => self.add_named(alloc, event, part.place(), name, value),
                None => Err(TriggerFault::Syntax(part.place())),
            },
            None => Err(TriggerFault::Syntax(part.place())),
        }
    }

    /// Adds the variable of a name and a value, whose part begins at a place.
    fn add_named(
        &mut self,
        alloc: Global,
        event: Name,
        place: usize,
        name: &[u8],
        value: &[u8],
    ) -> Result<(), TriggerFault>
        ensures { Leaves (with_named event self.old place name.now value.now) self.new result }
    {
        if is_made(event) {
            return Err(TriggerFault::LeftOut(place));
        }
        if self.variable.is_some() {
            return Err(TriggerFault::LeftOut(place));
        }
        match stamp_of(value) {
            Some(stamp) => {
                if is_taken(event, name, stamp) {
                    return Err(TriggerFault::Duplicate);
                }
                self.variable = Some(var_of(alloc, name, stamp)?);
                Ok(())
            }
            None => Err(TriggerFault::LeftOut(place)),
        }
    }
}

/// Reads the parts of a head, which begin at a place of its trigger's text. The first fault from the
/// left decides, and its place counts in the trigger's text. Memory may run out.
#[tactic(auto, unfolding(crate::specs::Draft::parts_from))]
pub fn parts_of<'a>(
    alloc: Global,
    event: Name,
    place: usize,
    text: &'a [u8],
) -> Result<Draft<'a>, TriggerFault>
    requires { place + length text.now < 2 ^ 63 }
    ensures { Gives (λ draft. draft) (parts_from event empty_draft (pieces 58 place text.now)) result }
{
    let mut parts = Pieces::of(&Piece::of(place, text), b':');
    let mut draft = Draft::blank();
    while let Some(part) = parts.next_piece() {
        draft.add_part(alloc, event, &part)?;
    }
    Ok(draft)
}

/// Whether it is the event that triggers make.
fn is_made(event: Name) -> bool
    ensures { result ≡ same_name event Name.WakeupLatency }
{
    event == Name::WakeupLatency
}

/// Whether it is a part that the kernel has and the desk has not.
fn is_part_left_out(part: &[u8]) -> bool
    ensures { result ≡ is_part_left_out part.now }
{
    is_word_left_out(part)
        || part.starts_with(b"name=")
        || part.starts_with(b"clock=")
        || part.starts_with(b"onmax(")
        || part.starts_with(b"onchange(")
}

/// Whether it is a word that the kernel has as a part and the desk has not.
fn is_word_left_out(part: &[u8]) -> bool
    ensures { result ≡ list_any (bytes_eq part.now)
        (codes "pause" ∷ codes "cont" ∷ codes "clear" ∷ codes "nohitcount" ∷ []) }
{
    is_same(part, b"pause")
        || is_same(part, b"cont")
        || is_same(part, b"clear")
        || is_same(part, b"nohitcount")
}

/// The kind of a part, and how many bytes its label has.
fn kind_of(part: &[u8]) -> Option<(usize, Kind)>
    ensures value { result ≡ option_map (λ label. (length label.0, label.1))
        (find (λ label. starts_with ◌==◌ part.now label.0) labels) }
    ensures within { IfSome result (λ found. found.0 ≤ length part.now) }
{
    if part.starts_with(b"keys=") {
        return Some((b"keys=".len(), Kind::Keys));
    }
    if part.starts_with(b"key=") {
        return Some((b"key=".len(), Kind::Keys));
    }
    if part.starts_with(b"values=") {
        return Some((b"values=".len(), Kind::Values));
    }
    if part.starts_with(b"vals=") {
        return Some((b"vals=".len(), Kind::Values));
    }
    if part.starts_with(b"val=") {
        return Some((b"val=".len(), Kind::Values));
    }
    if part.starts_with(b"sort=") {
        return Some((b"sort=".len(), Kind::Sort));
    }
    if part.starts_with(b"size=") {
        return Some((b"size=".len(), Kind::Size));
    }
    None
}

/// The size that a text writes: its number, rounded up to a power of 2. The greatest size is itself
/// a power of 2, so no number above it is rounded.
fn size_of(text: &[u8]) -> Option<u32>
    ensures value { result ≡ size_of text.now }
    ensures least { IfSome result (λ size. 128 ≤ size) }
    ensures most { IfSome result (λ size. size ≤ 131072) }
{
    let size = number_in(text, 0, MOST_SIZE)?.next_power_of_two();
    if size < LEAST_SIZE {
        return None;
    }
    Some(size)
}

/// The value of a variable's part, if it is one.
#[tactic(auto, unfolding(crate::specs::Draft::variable_stamp))]
fn stamp_of(value: &[u8]) -> Option<Stamp<'_>>
    ensures { option_map stamp_seen result ≡ variable_stamp value.now }
{
    if is_same(value, SAVED) {
        return Some(Stamp::Saved);
    }
    if value.starts_with(SINCE) {
        return since(&value[SINCE.len()..]);
    }
    None
}

/// The time since the stamp that a name saves, if it is a name.
fn since(source: &[u8]) -> Option<Stamp<'_>>
    ensures { option_map stamp_seen result
        ≡ (if is_name source.now then Some (Since source.now) else None) }
{
    if is_name(source) {
        Some(Stamp::Since(source))
    } else {
        None
    }
}

/// Whether a variable may not have this name: that of a field of the event, `hitcount`, or the
/// name that it reads.
fn is_taken(event: Name, name: &[u8], stamp: Stamp<'_>) -> bool
    ensures { result ≡ is_taken event name.now (stamp_seen stamp.entry) }
{
    field_named(event, name).is_some() || is_same(name, b"hitcount") || reads_itself(name, stamp)
}

/// Whether the name is the one that is read.
fn reads_itself(name: &[u8], stamp: Stamp<'_>) -> bool
    ensures { result ≡ reads_itself name.now (stamp_seen stamp.entry) }
{
    match stamp {
        Stamp::Saved => false,
        Stamp::Since(source) => is_same(name, source),
    }
}

/// The variable of a name and a value. Refused for memory.
fn var_of(alloc: Global, name: &[u8], stamp: Stamp<'_>) -> Result<Var, TriggerFault>
    ensures ok { IfOk result (λ variable. variable ≡ var_of name.now (stamp_seen stamp.entry)) }
    ensures err { IfErr result (λ fault. fault ≡ TriggerFault.Memory) }
{
    let own = label_of(alloc, name)?;
    match stamp {
        Stamp::Saved => Ok(Var::Saves(own)),
        Stamp::Since(source) => Ok(Var::Reads {
            own,
            source: label_of(alloc, source)?,
        }),
    }
}

/// The name of these bytes. Refused for memory.
fn label_of(alloc: Global, bytes: &[u8]) -> Result<Label, TriggerFault>
    ensures ok { IfOk result (λ label. label ≡ bytes.now) }
    ensures err { IfErr result (λ fault. fault ≡ TriggerFault.Memory) }
{
    match Label::of(alloc, bytes) {
        Ok(label) => Ok(label),
        Err(_) => Err(TriggerFault::Memory),
    }
}
