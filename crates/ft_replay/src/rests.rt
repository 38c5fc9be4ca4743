//! What is left of lanes while their events are listed.

ghost use Rattle.std.specs.Prelude.{◌≡◌, ◌++◌, [], length, cond, OnOk, IfOk, MatchOption};
ghost use Rattle.std.specs.List.{flat_map};
ghost use Rattle.std.specs.FinMap as map;
ghost use Rattle.ft_replay.specs.Chosen.{is_among, lanes_but};
ghost use Rattle.ft_replay.specs.Merged.{placed};
ghost use Rattle.ft_replay.specs.inner.Rests.{traced_entry, entries_left, placed_lines, IsTaken};

use ft_fields::Pos;
use ft_lanes::{Lane, Lanes, Lines};
use ft_store::Stored;
use std::alloc::{AllocError, Global};
use std::marker::Model;

/// What is left of the lane of one CPU: its events with their places, by line.
#[derive(Drop)]
pub(crate) struct Rest<'a> {
    cpu: u16,
    first: Option<(u32, Stored<'a>)>,
    behind: Lines<'a>,
}

impl<'a> Model for Rest<'a> {
    ghost use Rattle.std.specs.Prelude.{List, option_map};
    ghost use Rattle.ft_fields.specs.Traced.{Traced};
    ghost use Rattle.ft_fields.specs.declared.pos.Pos.{Pos};
    ghost use Rattle.ft_lanes.specs.Walks.{traced_line};
    ghost use Rattle.ft_replay.specs.inner.Rests.{lines_from, placed_lines};

    ghost Value = { List (Pos × Traced) };

    ghost view = { λ r. placed_lines r.cpu (lines_from (option_map traced_line r.first) r.behind) };
}

impl<'a> Rest<'a> {
    /// All of these lines of a CPU.
    fn new(cpu: u16, mut lines: Lines<'a>) -> Rest<'a>
        ensures { result ≡ placed_lines cpu lines.entry }
    {
        let first = lines.next();
        Rest {
            cpu,
            first,
            behind: lines,
        }
    }

    /// Whether its first event is at a place of the store.
    fn is_at(&self, place: u32) -> bool {
        match self.first {
            Some((_, stored)) => stored.place() == place,
            None => false,
        }
    }
}

impl<'a> Iterator for Rest<'a> {
    ghost use Rattle.std.specs.Prelude.{length};
    ghost use Rattle.std.specs.Iterator.{at_most};
    ghost use Rattle.std.specs.Map.Iter.{TakesFirst};
    ghost use Rattle.ft_replay.specs.inner.Rests.{traced_entry};

    type Item = (Pos, Stored<'a>);

    ghost next_gives = { TakesFirst traced_entry };

    ghost remaining = { λ s. at_most (length s) };

    fn next(&mut self) -> Option<(Pos, Stored<'a>)> {
        match self.first {
            Some((line, stored)) => {
                self.first = self.behind.next();
                let stamp = stored.stamp();
                Some((
                    Pos {
                        stamp,
                        cpu: self.cpu,
                        line,
                    },
                    stored,
                ))
            }
            None => None,
        }
    }
}

/// The lanes that are listed, and how far each of them has been read.
#[derive(Drop)]
pub(crate) struct Rests<'a> {
    rests: Vec<Rest<'a>>,
    by_cpu: Vec<u16>,
}

/// Marks a CPU without a lane that is listed.
const NO_REST: u16 = u16::MAX;

impl<'a> Rests<'a> {
    /// All lanes except those of some CPUs. Refused for memory.
    pub(crate) fn of(alloc: Global, lanes: &'a Lanes, but: &[u16]) -> Result<Rests<'a>, AllocError>
        ensures { IfOk result (λ rests. entries_left rests.rests.items
            ≡ flat_map placed (map.entries (lanes_but but.now lanes.now))) }
    {
        let mut rests = Rests {
            rests: Vec::new(alloc),
            by_cpu: Vec::new(alloc),
        };
        for (cpu, lane) in lanes.lanes() {
            rests.push_unless(but, cpu, &lane)?;
        }
        Ok(rests)
    }

    /// Adds a lane, unless its CPU is among those in `but`. Refused for memory.
    fn push_unless(&mut self, but: &[u16], cpu: u16, lane: &Lane<'a>) -> Result<(), AllocError>
        ensures { OnOk result (entries_left self.new.rests.items
            ≡ entries_left self.old.rests.items ++ cond (is_among but.now cpu) [] (placed (cpu, lane.now))) }
    {
        if but.contains(&cpu) {
            return Ok(());
        }
        self.by_cpu.resize(usize::from(cpu), NO_REST)?;
        // There are fewer CPUs than numbers; a lane without one would be listed at the end.
        self.by_cpu
            .push(u16::try_from(self.rests.len()).unwrap_or(NO_REST))?;
        self.rests.push(Rest::new(cpu, lane.lines()))?;
        Ok(())
    }

    /// Takes out the event at a place of the store, if it is the first that is left of the lane of
    /// this CPU.
    pub(crate) fn take_at(&mut self, cpu: u16, place: u32) -> Option<(Pos, Stored<'a>)>
        ensures { MatchOption result (entries_left self.new.rests.items ≡ entries_left self.old.rests.items)
            (λ entry. IsTaken (entries_left self.old.rests.items) (traced_entry entry)
            (entries_left self.new.rests.items)) }
    {
        match self.by_cpu.get(usize::from(cpu)) {
            Some(index) => take_at(&mut self.rests, usize::from(*index), place),
            None => None,
        }
    }

    /// What is left of each lane.
    pub(crate) fn into_rests(self) -> Vec<Rest<'a>>
        ensures { result.items ≡ self.entry.rests.items }
    {
        let Rests { rests, by_cpu: _ } = self;
        rests
    }
}

/// Takes out the event at a place of the store, if it is the first of the rest with this index.
fn take_at<'a>(rests: &mut Vec<Rest<'a>>, index: usize, place: u32) -> Option<(Pos, Stored<'a>)>
    ensures { MatchOption result (entries_left rests.new.items ≡ entries_left rests.old.items)
        (λ entry. IsTaken (entries_left rests.old.items) (traced_entry entry) (entries_left rests.new.items)) }
{
    if index >= rests.len() || !rests[index].is_at(place) {
        return None;
    }
    rests[index].next()
}
