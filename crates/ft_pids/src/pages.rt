//! Numbers at places below a limit.

ghost use Rattle.std.specs.Prelude.{◌≡◌, ◌<◌, ◌==◌, ℕ, length, OnOk, slice_index_or, if◌then◌else◌};
ghost use Rattle.ft_pids.specs.Numbers.{number_at};

use std::alloc::{AllocError, Global};

/// How many places a page has.
const PAGE: usize = 512;

/// The numbers of a page: all of them, or none before the first is put.
#[derive(Drop)]
pub(crate) struct Page {
    pub(crate) numbers: Vec<usize>,
}

/// The number at a place.
#[inline(always)]
pub(crate) fn number_at(pages: &[Page], place: usize) -> usize
    ensures { result ≡ number_at pages.now place }
{
    match pages.get(place / PAGE) {
        Some(page) => match page.numbers.get(place % PAGE) {
            Some(number) => *number,
            None => 0,
        },
        None => 0,
    }
}

/// Fills numbers up with 0, so that there are as many as a page has.
fn fill(numbers: &mut Vec<usize>) -> Result<(), AllocError>
    ensures long { OnOk result (511 < length numbers.new.items) }
    ensures same { OnOk result ((index : ℕ) → slice_index_or numbers.new.items index 0
        ≡ slice_index_or numbers.old.items index 0) }
{
    if numbers.len() < PAGE {
        numbers.resize(PAGE, 0)?;
    }
    Ok(())
}

impl Page {
    /// Puts a number at an index.
    fn put(&mut self, index: usize, number: usize) -> Result<(), AllocError>
        requires { index < 512 }
        ensures { OnOk result ((other : ℕ) → slice_index_or self.new.numbers.items other 0
            ≡ if index == other then number else slice_index_or self.old.numbers.items other 0) }
    {
        fill(&mut self.numbers)?;
        self.numbers[index] = number;
        Ok(())
    }
}

/// Adds empty pages until there is one with this index.
fn add_pages(alloc: Global, pages: &mut Vec<Page>, index: usize) -> Result<(), AllocError>
    ensures long { OnOk result (index < length pages.new.items) }
    ensures same { OnOk result ((place : ℕ) → number_at pages.new.items place ≡ number_at pages.old.items place) }
{
    while pages.len() <= index {
        pages.push(Page {
            numbers: Vec::new(alloc),
        })?;
    }
    Ok(())
}

/// Puts a number at a place.
#[inline(never)]
pub(crate) fn put_at(
    alloc: Global,
    pages: &mut Vec<Page>,
    place: usize,
    number: usize,
) -> Result<(), AllocError>
    ensures { OnOk result ((other : ℕ) → number_at pages.new.items other
        ≡ if place == other then number else number_at pages.old.items other) }
{
    add_pages(alloc, pages, place / PAGE)?;
    pages[place / PAGE].put(place % PAGE, number)
}
