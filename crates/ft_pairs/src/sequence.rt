//! Sequences: the operations of one key.

ghost use Rattle.std.specs.Prelude.{◌≡◌, OnOk, OnErr, IfOk, IfSome, IsTrue, fold};
ghost use Rattle.std.specs.FinMap as map;
ghost use Rattle.std.specs.Map.{keys_of};
ghost use Rattle.std.specs.Ordering.{is_lt};
ghost use Rattle.ft_blocks.specs.Sorted.{Ascend};
ghost use Rattle.ft_pairs.specs.Edits.{if_read};
ghost use Rattle.ft_pairs.specs.Next.{IsNext};
ghost use Rattle.ft_pairs.specs.Order.{at_cmp};
ghost use Rattle.ft_pairs.specs.Runs.{with_reads, FindEach, SomeReads};
ghost use Rattle.ft_pairs.specs.Source.{IsSource};
ghost use Rattle.ft_pairs.specs.inner.Met.{with_read};
ghost use Rattle.ft_pairs.specs.inner.Sides.{as_ops, both, is_after, Places, IsFirstOf, IsLastOf};
ghost use Rattle.ft_pairs.specs.declared.at.At.{At};
ghost use Rattle.ft_pairs.specs.declared.at.Op.TheVariants.{Save};

use crate::at::{At, Op};
use ft_blocks::Blocks;
use std::alloc::{AllocError, Global};
use std::marker::Model;

/// The operations of one key: the places of its saves and those of its reads, in blocks. A read
/// hides a save at its place.
///
/// Contracts see a finite map.
#[derive(Drop)]
pub(crate) struct Sequence {
    saves: Blocks<At, ()>,
    reads: Blocks<At, ()>,
}

impl Model for Sequence {
    ghost use Rattle.ft_pairs.specs.ByKey.{KeyOps};
    ghost use Rattle.ft_pairs.specs.Codes.{key_ops_code};
    ghost use Rattle.ft_pairs.specs.inner.Sides.{both};

    ghost Value = { KeyOps };

    ghost coded = { key_ops_code };

    ghost view = { λ s. both s.saves s.reads };
}

impl Sequence {
    /// No operations. It takes no memory.
    pub(crate) fn new(alloc: Global) -> Sequence
        ensures { result ≡ map.empty }
    {
        Sequence {
            saves: Blocks::new(alloc),
            reads: Blocks::new(alloc),
        }
    }

    /// The operations of a list, by place; of two at one place, the first. Refused for memory.
    pub(crate) fn of(alloc: Global, run: &[(At, Op)]) -> Result<Sequence, AllocError>
        ensures { IfOk result (λ sequence. sequence ≡ map.from_entries run.now) }
    {
        match saves_in_order(alloc, run)? {
            Some(places) => {
                let saves = Blocks::of(alloc, places)?;
                Ok(Sequence {
                    saves,
                    reads: Blocks::new(alloc),
                })
            }
            None => one_by_one(alloc, run),
        }
    }

    /// Whether it has no operations.
    pub(crate) fn is_empty(&self) -> bool
        ensures { IsTrue result → self.now ≡ map.empty }
    {
        self.saves.first().is_none() && self.reads.first().is_none()
    }

    /// The operation at a place.
    pub(crate) fn get(&self, at: At) -> Option<Op>
        ensures { result ≡ map.get self.now at }
    {
        if self.reads.get(&at).is_some() {
            return Some(Op::Read);
        }
        if self.saves.get(&at).is_some() {
            return Some(Op::Save);
        }
        None
    }

    /// Puts an operation at a place. Refused for memory, and then it is as it was.
    pub(crate) fn insert(&mut self, alloc: Global, at: At, op: Op) -> Result<(), AllocError>
        ensures ok { OnOk result (self.new ≡ map.insert self.old at op) }
        ensures err { OnErr result (self.new ≡ self.old) }
    {
        match op {
            Op::Read => self.reads.insert(alloc, at, ()),
            Op::Save => {
                self.saves.insert(alloc, at, ())?;
                self.reads.remove(&at);
                Ok(())
            }
        }
    }

    /// Puts reads at places, in place of what stands there, and returns what each of them finds
    /// then. Refused for memory, and then some of them may stand.
    pub(crate) fn put_reads(
        &mut self,
        alloc: Global,
        reads: &[At],
    ) -> Result<Vec<Option<At>>, AllocError>
        ensures ops { OnOk result ((at : At)
            → map.get self.new at ≡ with_reads reads.now (map.get self.old) at) }
        ensures err { OnErr result (SomeReads reads.now (map.get self.old) (map.get self.new)) }
        ensures found { IfOk result (λ found.
            FindEach (map.get self.new) reads.now found.items) }
    {
        if self.reads.first().is_some() {
            return self.put_among(alloc, reads);
        }
        match places_in_order(alloc, reads)? {
            Some(places) => {
                self.reads = Blocks::of(alloc, places)?;
                sources_in_turn(alloc, &self.saves, reads)
            }
            None => self.put_among(alloc, reads),
        }
    }

    /// Puts reads at places among others, in place of what stands there, and returns what each of
    /// them finds then. Refused for memory, and then some of them may stand.
    fn put_among(&mut self, alloc: Global, reads: &[At]) -> Result<Vec<Option<At>>, AllocError>
        ensures ops { OnOk result ((at : At)
            → map.get self.new at ≡ with_reads reads.now (map.get self.old) at) }
        ensures err { OnErr result (SomeReads reads.now (map.get self.old) (map.get self.new)) }
        ensures found { IfOk result (λ found.
            FindEach (map.get self.new) reads.now found.items) }
    {
        self.put_each(alloc, reads)?;
        self.sources(alloc, reads)
    }

    /// Puts a read at each place in turn. Refused for memory, and then some of them may stand.
    fn put_each(&mut self, alloc: Global, reads: &[At]) -> Result<(), AllocError>
        ensures ok { OnOk result (self.new ≡ fold with_read self.old reads.now) }
        ensures err { OnErr result (SomeReads reads.now (map.get self.old) (map.get self.new)) }
    {
        for at in reads {
            self.insert(alloc, *at, Op::Read)?;
        }
        Ok(())
    }

    /// What the reading at each of some places finds. Refused for memory.
    fn sources(&self, alloc: Global, reads: &[At]) -> Result<Vec<Option<At>>, AllocError>
        ensures { IfOk result (λ found. FindEach (map.get self.now) reads.now found.items) }
    {
        let mut found = Vec::with_capacity(alloc, reads.len())?;
        while found.len() < reads.len() {
            found.push(self.source(reads[found.len()]))?;
        }
        Ok(found)
    }

    /// Takes the operation at a place, if one stands there. It needs no memory.
    pub(crate) fn remove(&mut self, at: At)
        ensures { self.new ≡ map.remove self.old at }
    {
        self.saves.remove(&at);
        self.reads.remove(&at);
    }

    /// Takes all operations except the reads. It needs no memory.
    pub(crate) fn keep_reads(&mut self, alloc: Global)
        ensures { (at : At) → map.get self.new at ≡ if_read (map.get self.old at) }
    {
        self.saves = Blocks::new(alloc);
    }

    /// The last operation before a place, if that is a save.
    pub(crate) fn source(&self, at: At) -> Option<At>
        ensures { IsSource (map.get self.now) at result }
    {
        source_after(&self.saves, last_before(&self.reads, at), at)
    }

    /// The first operation after a place, or the first of all.
    pub(crate) fn next(&self, after: Option<At>) -> Option<(At, Op)>
        ensures { IsNext (map.get self.now) after result }
    {
        match first_after(&self.saves, after) {
            None => match first_after(&self.reads, after) {
                None => None,
                Some(read) => Some((read, Op::Read)),
            },
            Some(save) => match first_after(&self.reads, after) {
                None => Some((save, Op::Save)),
                Some(read) => {
                    if is_before(save, read) {
                        return Some((save, Op::Save));
                    }
                    Some((read, Op::Read))
                }
            },
        }
    }
}

/// The operations of a list, by place; of two at one place, the first. Refused for memory.
fn one_by_one(alloc: Global, run: &[(At, Op)]) -> Result<Sequence, AllocError>
    ensures { IfOk result (λ sequence. sequence ≡ map.from_entries run.now) }
{
    let mut sequence = Sequence::new(alloc);
    // From the last to the first, so that the first at a place stays.
    let mut left = run.len();
    while left > 0 {
        left -= 1;
        let (at, op) = run[left];
        sequence.insert(alloc, at, op)?;
    }
    Ok(sequence)
}

/// The places of a list, if all its operations are saves and each stands after the one before it.
/// Refused for memory.
fn saves_in_order(alloc: Global, run: &[(At, Op)]) -> Result<Option<Vec<(At, ())>>, AllocError>
    ensures rise { IfOk result (λ places. IfSome places (λ places. Ascend at_cmp places.items)) }
    ensures same { IfOk result (λ places. IfSome places (λ places.
        as_ops Save places.items ≡ run.now)) }
{
    let mut places = Vec::with_capacity(alloc, run.len())?;
    let mut before = None;
    for operation in run {
        match operation.1 {
            Op::Read => return Ok(None),
            Op::Save => {
                if !is_after(before, operation.0) {
                    return Ok(None);
                }
                places.push((operation.0, ()))?;
                before = Some(operation.0);
            }
        }
    }
    Ok(Some(places))
}

/// Places, if each stands after the one before it. Refused for memory.
fn places_in_order(alloc: Global, reads: &[At]) -> Result<Option<Vec<(At, ())>>, AllocError>
    ensures rise { IfOk result (λ places. IfSome places (λ places. Ascend at_cmp places.items)) }
    ensures same { IfOk result (λ places. IfSome places (λ places.
        keys_of places.items ≡ reads.now)) }
{
    let mut places = Vec::with_capacity(alloc, reads.len())?;
    let mut before = None;
    for at in reads {
        if !is_after(before, *at) {
            return Ok(None);
        }
        places.push((*at, ()))?;
        before = Some(*at);
    }
    Ok(Some(places))
}

/// What each of some reads finds among saves, if there are no other reads and each stands after the
/// one before it. Refused for memory.
fn sources_in_turn(
    alloc: Global,
    saves: &Blocks<At, ()>,
    reads: &[At],
) -> Result<Vec<Option<At>>, AllocError>
    ensures { IfOk result (λ found. (own : Places) → keys_of own ≡ reads.now → Ascend at_cmp own
        → FindEach (map.get (both saves.now own)) reads.now found.items) }
{
    let mut found = Vec::with_capacity(alloc, reads.len())?;
    let mut before = None;
    for at in reads {
        found.push(source_after(saves, before, *at))?;
        before = Some(*at);
    }
    Ok(found)
}

/// What a reading finds at a place, if this is the last read before it: the last save before it, if
/// that stands after the read.
fn source_after(saves: &Blocks<At, ()>, read: Option<At>, at: At) -> Option<At>
    ensures { (own : Places) → IsLastOf own at read
        → IsSource (map.get (both saves.now own)) at result }
{
    match last_before(saves, at) {
        None => None,
        Some(save) => match read {
            None => Some(save),
            Some(read) => {
                if is_before(read, save) {
                    return Some(save);
                }
                None
            }
        },
    }
}

/// Whether a place is after another, if there is another.
fn is_after(before: Option<At>, at: At) -> bool
    ensures { result ≡ is_after before at }
{
    match before {
        None => true,
        Some(before) => before < at,
    }
}

/// Whether a place is before another.
fn is_before(one: At, other: At) -> bool
    ensures { result ≡ is_lt (at_cmp one other) }
{
    one.cmp(&other).is_lt()
}

/// The last of some places before another.
fn last_before(places: &Blocks<At, ()>, at: At) -> Option<At>
    ensures { IsLastOf places.now at result }
{
    match places.before(&at) {
        None => None,
        Some((last, ())) => Some(last),
    }
}

/// The first of some places after another, or the first of all.
fn first_after(places: &Blocks<At, ()>, after: Option<At>) -> Option<At>
    ensures { IsFirstOf places.now after result }
{
    let first = match after {
        None => places.first(),
        Some(at) => places.after(&at),
    };
    match first {
        None => None,
        Some((first, ())) => Some(first),
    }
}
