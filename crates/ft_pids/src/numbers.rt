//! A number for each PID.

ghost use Rattle.std.specs.Prelude.{◌≡◌, ℤ, OnOk, if◌then◌else◌};
ghost use Rattle.std.specs.Ordering.{int_eq};
ghost use Rattle.ft_pids.specs.Numbers.{number_of, other_number, place_of};

use crate::pages::{Page, number_at, put_at};
use std::alloc::{AllocError, Global};
use std::collections::BTreeMap;

/// The first number that is no PID: Linux has none from here on.
const LIMIT: u32 = 4_194_304;

/// A number that is no PID of Linux, such as -1.
#[derive(Clone, Copy, PartialEq, Eq, PartialOrd, Ord)]
pub(crate) struct Other {
    pub(crate) pid: i32,
}

/// A number for each PID: 0, if none was put.
#[derive(Drop)]
pub struct Numbers {
    /// Where pages are made.
    pub(crate) alloc: Global,
    /// The numbers of PIDs.
    pub(crate) pages: Vec<Page>,
    /// Those of numbers that are no PIDs of Linux.
    pub(crate) others: BTreeMap<Other, usize>,
}

/// The place of a PID among the pages.
#[inline(always)]
fn place_of(pid: i32) -> Option<usize>
    ensures { result ≡ place_of pid }
{
    if pid < 0 {
        return None;
    }
    let place = pid.unsigned_abs();
    if place < LIMIT {
        Some(place as usize)
    } else {
        None
    }
}

/// The number of one that is no PID of Linux.
#[inline(never)]
fn other_number(others: &BTreeMap<Other, usize>, pid: i32) -> usize
    ensures { result ≡ other_number others.now pid }
{
    match others.get(&Other { pid }) {
        Some(number) => *number,
        None => 0,
    }
}

/// Puts the number of one that is no PID of Linux.
#[inline(never)]
fn put_other(others: &mut BTreeMap<Other, usize>, pid: i32, number: usize) -> Result<(), AllocError>
    ensures { OnOk result ((q : ℤ) → other_number others.new q
        ≡ if int_eq pid q then number else other_number others.old q) }
{
    others.insert(Other { pid }, number)?;
    Ok(())
}

impl Numbers {
    /// All numbers are 0.
    pub fn new(alloc: Global) -> Numbers
        ensures { (pid : ℤ) → number_of result pid ≡ 0 }
    {
        Numbers {
            alloc,
            pages: Vec::new(alloc),
            others: BTreeMap::new(alloc),
        }
    }

    /// The number of a PID.
    #[inline(always)]
    pub fn get(&self, pid: i32) -> usize
        ensures { result ≡ number_of self.now pid }
    {
        match place_of(pid) {
            Some(place) => number_at(&self.pages, place),
            None => other_number(&self.others, pid),
        }
    }

    /// Puts a number at a PID. Fails only for memory.
    pub fn put(&mut self, pid: i32, number: usize) -> Result<(), AllocError>
        ensures { OnOk result ((q : ℤ) → number_of self.new q
            ≡ if int_eq pid q then number else number_of self.old q) }
    {
        match place_of(pid) {
            Some(place) => put_at(self.alloc, &mut self.pages, place, number),
            None => put_other(&mut self.others, pid, number),
        }
    }
}
