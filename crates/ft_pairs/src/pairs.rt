//! Pairs: the operations of all keys.

ghost use Rattle.std.specs.Prelude.{◌≡◌, ◌+◌, ◌<◌, ◌≤◌, List, length, None, Some, OnOk, OnErr, IfOk, IfSome, IsTrue};
ghost use Rattle.std.specs.FinMap as map;
ghost use Rattle.ft_fields.specs.declared.key.Part.{Part};
ghost use Rattle.ft_fields.specs.Parts.{key_cmp};
ghost use Rattle.ft_maps.specs.Seen.{seen};
ghost use Rattle.ft_pairs.specs.declared.at.At.{At};
ghost use Rattle.ft_pairs.specs.ByKey.{ops_of, ops_left, ChangesKey, PartlyChangesKey};
ghost use Rattle.ft_pairs.specs.Edits.{with_op, without_op, reads_alone};
ghost use Rattle.ft_pairs.specs.Runs.{ops_listed, with_reads, FindEach};

use crate::at::{At, Op};
use crate::sequence::Sequence;
use ft_fields::Key;
use ft_maps::{Work, put, take};
use std::alloc::{AllocError, Global};
use std::collections::BTreeMap;
use std::marker::Model;

/// The operations on the variables of one name, by key and place.
///
/// Contracts see a finite map by key of finite maps by place, and speak of what stands at a key and
/// a place.
#[derive(Drop)]
pub struct Pairs {
    alloc: Global,
    by_key: BTreeMap<Key, Sequence>,
}

impl Model for Pairs {
    ghost use Rattle.ft_pairs.specs.ByKey.{OpsByKey};
    ghost use Rattle.ft_pairs.specs.Codes.{by_key_code};

    ghost Value = { OpsByKey };

    ghost coded = { by_key_code };

    ghost use Rattle.ft_fields.specs.Parts.{key_cmp};
    ghost use Rattle.ft_maps.specs.Seen.{seen};

    ghost view = { λ p. seen key_cmp p.by_key };
}

impl Pairs {
    ghost use Rattle.ft_maps.specs.Steps.{StepsGrow};
    ghost use Rattle.ft_pairs.specs.Next.{IsNext};
    ghost use Rattle.ft_pairs.specs.Source.{IsSource};

    /// No operations. It takes no memory.
    pub fn new(alloc: Global) -> Pairs
        ensures { (key : List Part) (at : At) → ops_of result key at ≡ None }
    {
        Pairs {
            alloc,
            by_key: BTreeMap::new(alloc),
        }
    }

    /// Whether no operation stands there at all.
    pub fn is_empty(&self) -> bool
        ensures { IsTrue result → (key : List Part) (at : At) → ops_of self.now key at ≡ None }
    {
        self.by_key.len() == 0
    }

    /// Puts an operation of a key at a place where none stands. Counts one put in `work`, refused
    /// or not. Refused for memory, and then all is as it was.
    pub fn insert(&mut self, key: Key, at: At, op: Op, work: &mut Work) -> Result<(), AllocError>
        requires { ops_of self.old key at ≡ None }
        ensures ok { OnOk result (ChangesKey key (with_op at op) self.old self.new) }
        ensures err { OnErr result (self.new ≡ self.old) }
        ensures puts { work.new.puts ≡ work.old.puts + 1 }
        ensures evals { work.new.evals ≡ work.old.evals }
    {
        work.tick_put();
        put_op(self.alloc, &mut self.by_key, key, at, op)
    }

    /// Puts all operations of a key that has none: those of a list, by place; of two at one place,
    /// the first. Counts a put in `work` for each of the list, refused or not. Refused for memory,
    /// and then all is as it was.
    pub fn put_key(
        &mut self,
        key: Key,
        run: Vec<(At, Op)>,
        work: &mut Work,
    ) -> Result<(), AllocError>
        requires { (at : At) → ops_of self.old key at ≡ None }
        ensures ok { OnOk result (ChangesKey key (ops_listed run.items) self.old self.new) }
        ensures err { OnErr result (self.new ≡ self.old) }
        ensures puts { work.new.puts ≡ work.old.puts + length run.items }
        ensures evals { work.new.evals ≡ work.old.evals }
    {
        tick_puts(work, run.len());
        put_run(self.alloc, &mut self.by_key, key, run)
    }

    /// Puts reads of a key at places, in place of what stands there, and returns what each of them
    /// finds then, in their order. Counts a put in `work` for each, refused or not. Refused for
    /// memory, and then some of them may stand, and all else is as it was.
    pub fn put_reads(
        &mut self,
        key: Key,
        reads: &[At],
        work: &mut Work,
    ) -> Result<Vec<Option<At>>, AllocError>
        ensures ok { IfOk result (λ found.
            ChangesKey key (with_reads reads.now) self.old self.new) }
        ensures err { OnErr result
            (PartlyChangesKey key (with_reads reads.now) self.old self.new) }
        ensures found { IfOk result (λ found.
            FindEach (ops_of self.new key) reads.now found.items) }
        ensures puts { work.new.puts ≡ work.old.puts + length reads.now }
        ensures evals { work.new.evals ≡ work.old.evals }
        ensures grow { StepsGrow work.old work.new }
    {
        tick_puts(work, reads.len());
        read_key(self.alloc, &mut self.by_key, key, reads)
    }

    /// Takes the operation of a key at a place away, if one stands there. It needs no memory.
    pub fn remove(&mut self, key: &Key, at: At)
        ensures { ChangesKey key.now (without_op at) self.old self.new }
    {
        take_op(&mut self.by_key, key, at);
        clear_out(&mut self.by_key, key);
    }

    /// Takes the saves of a key away. Its reads stay. It needs no memory.
    pub fn remove_key(&mut self, key: &Key)
        ensures { ChangesKey key.now reads_alone self.old self.new }
    {
        take_saves(self.alloc, &mut self.by_key, key);
        clear_out(&mut self.by_key, key);
    }

    /// The operation of a key at a place.
    pub fn op_at(&self, key: &Key, at: At) -> Option<Op>
        ensures { result ≡ ops_of self.now key.now at }
    {
        match self.by_key.get(key) {
            Some(sequence) => sequence.get(at),
            None => None,
        }
    }

    /// What a reading of a key finds at a place: the last operation before it, if that is a save.
    pub fn source(&self, key: &Key, at: At) -> Option<At>
        ensures { IsSource (ops_of self.now key.now) at result }
    {
        match self.by_key.get(key) {
            Some(sequence) => sequence.source(at),
            None => None,
        }
    }

    /// The first operation of a key after a place, or the first of all, if no place is given. After
    /// it fewer are left than after that place, so that a walk ends.
    pub fn next_op(&self, key: &Key, after: Option<At>) -> Option<(At, Op)>
        ensures next { IsNext (ops_of self.now key.now) after result }
        ensures fewer { IfSome result (λ next.
            ops_left self.now key.now (Some next.0) < ops_left self.now key.now after) }
    {
        match self.by_key.get(key) {
            Some(sequence) => sequence.next(after),
            None => None,
        }
    }
}

/// Puts an operation of a key at a place. Refused for memory, and then all is as it was.
fn put_op(
    alloc: Global,
    by_key: &mut BTreeMap<Key, Sequence>,
    key: Key,
    at: At,
    op: Op,
) -> Result<(), AllocError>
    ensures ok { OnOk result
        (ChangesKey key (with_op at op) (seen key_cmp by_key.old) (seen key_cmp by_key.new)) }
    ensures err { OnErr result (seen key_cmp by_key.new ≡ seen key_cmp by_key.old) }
{
    match by_key.get_mut(&key) {
        Some(sequence) => sequence.insert(alloc, at, op),
        None => {
            let mut sequence = Sequence::new(alloc);
            sequence.insert(alloc, at, op)?;
            put(by_key, key, sequence)
        }
    }
}

/// Takes the operation of a key at a place away, if one stands there.
fn take_op(by_key: &mut BTreeMap<Key, Sequence>, key: &Key, at: At)
    ensures { ChangesKey key.now (without_op at)
        (seen key_cmp by_key.old) (seen key_cmp by_key.new) }
{
    match by_key.get_mut(key) {
        Some(sequence) => sequence.remove(at),
        None => {}
    }
}

/// Takes the saves of a key away.
fn take_saves(alloc: Global, by_key: &mut BTreeMap<Key, Sequence>, key: &Key)
    ensures { ChangesKey key.now reads_alone (seen key_cmp by_key.old) (seen key_cmp by_key.new) }
{
    match by_key.get_mut(key) {
        Some(sequence) => sequence.keep_reads(alloc),
        None => {}
    }
}

/// Takes out a key that has no operations, so that it takes no memory.
fn clear_out(by_key: &mut BTreeMap<Key, Sequence>, key: &Key)
    ensures { (k : List Part) (at : At)
        → ops_of (seen key_cmp by_key.new) k at ≡ ops_of (seen key_cmp by_key.old) k at }
{
    if is_clear(by_key, key) {
        take(by_key, key);
    }
}

/// Whether a key stands there without operations.
fn is_clear(by_key: &BTreeMap<Key, Sequence>, key: &Key) -> bool
    ensures { IsTrue result → map.get (seen key_cmp by_key.now) key.now ≡ Some map.empty }
{
    match by_key.get(key) {
        Some(sequence) => sequence.is_empty(),
        None => false,
    }
}

/// Counts some puts.
fn tick_puts(work: &mut Work, count: usize)
    ensures puts { work.new.puts ≡ work.old.puts + count }
    ensures evals { work.new.evals ≡ work.old.evals }
{
    for _ in 0..count {
        work.tick_put();
    }
}

/// Gives a key that has no operations those of a list. Refused for memory, and then all is as it
/// was.
fn put_run(
    alloc: Global,
    by_key: &mut BTreeMap<Key, Sequence>,
    key: Key,
    run: Vec<(At, Op)>,
) -> Result<(), AllocError>
    ensures ok { OnOk result
        (ChangesKey key (ops_listed run.items) (seen key_cmp by_key.old) (seen key_cmp by_key.new)) }
    ensures err { OnErr result (seen key_cmp by_key.new ≡ seen key_cmp by_key.old) }
{
    let sequence = Sequence::of(alloc, &run)?;
    put(by_key, key, sequence)
}

/// Puts reads of a key at places, and returns what each of them finds. Refused for memory, and then
/// some of them may stand, and all else is as it was.
fn read_key(
    alloc: Global,
    by_key: &mut BTreeMap<Key, Sequence>,
    key: Key,
    reads: &[At],
) -> Result<Vec<Option<At>>, AllocError>
    ensures ok { IfOk result (λ found.
        ChangesKey key (with_reads reads.now) (seen key_cmp by_key.old) (seen key_cmp by_key.new)) }
    ensures err { OnErr result (PartlyChangesKey key (with_reads reads.now)
        (seen key_cmp by_key.old) (seen key_cmp by_key.new)) }
    ensures found { IfOk result (λ found.
        FindEach (ops_of (seen key_cmp by_key.new) key) reads.now found.items) }
{
    match by_key.get_mut(&key) {
        Some(sequence) => sequence.put_reads(alloc, reads),
        None => {
            let mut sequence = Sequence::new(alloc);
            let found = sequence.put_reads(alloc, reads)?;
            put(by_key, key, sequence)?;
            Ok(found)
        }
    }
}
