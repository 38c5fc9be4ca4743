//! What several edits report of rows that they may have changed, as one report: each row once, in order.

ghost use Rattle.std.specs.Prelude.{◌≡◌, ◌||◌, ℕ, List, Some, None, IfOk, OnOk, IsSomeAnd, map as list_map};
ghost use Rattle.std.specs.FinMap as map;
ghost use Rattle.ft_fields.specs.declared.key.Part.{Part};
ghost use Rattle.ft_maps.specs.Seen.{seen};
ghost use Rattle.ft_changes.specs.Reports.{is_reported};
ghost use Rattle.ft_session.specs.inner.JointReports.{row_cmp, row_of, names, Adds, NamesNothing, Lists};

use ft_answers::{Changed, Edited, Place};
use ft_fields::Key;
use ft_maps::{entries, put};
use std::alloc::{AllocError, Global};
use std::collections::BTreeMap;

/// A row that is named. They are ordered by their trigger's id, then by their key.
#[derive(Clone, Copy, Debug, PartialEq, Eq, PartialOrd, Ord)]
pub(crate) struct NamedRow {
    /// The trigger's id.
    pub(crate) id: u32,
    /// The key.
    pub(crate) key: Key,
}

/// Rows, in order, each once.
pub(crate) type RowSet = BTreeMap<NamedRow, ()>;

/// What several edits report together.
#[derive(Drop)]
pub(crate) struct JointReport {
    /// The rows of triggers that count held events; none if they aren't reported.
    pub(crate) rows: Option<RowSet>,
    /// The rows of triggers that count made events; none if they aren't reported.
    pub(crate) made: Option<RowSet>,
    /// The place of the last edit's event; none if there was no edit.
    pub(crate) last: Option<Place>,
}

impl JointReport {
    /// What no edits report: no rows. If nothing is to be reported, there is no report.
    pub(crate) fn new(alloc: Global, reports: bool) -> JointReport
        ensures rows { NamesNothing reports result.rows }
        ensures made { NamesNothing reports result.made }
        ensures last { result.last ≡ None }
    {
        JointReport {
            rows: no_rows(alloc, reports),
            made: no_rows(alloc, reports),
            last: None,
        }
    }

    /// Adds what an edit reports. If it has no report, or memory runs out, there is none from now on.
    pub(crate) fn add(&mut self, edited: &Edited)
        ensures rows { Adds self.old.rows edited.now.report self.new.rows }
        ensures made { Adds self.old.made edited.now.made self.new.made }
        ensures last { self.new.last ≡ Some edited.now.place }
    {
        join(&mut self.rows, &edited.report);
        join(&mut self.made, &edited.made);
        self.last = Some(edited.place);
    }

    /// What all edits report, with the place of the last one; none if there was no edit.
    pub(crate) fn joint_edit(&self, alloc: Global) -> Option<Edited>
        ensures none { self.now.last ≡ None → result ≡ None }
        ensures some { (place : Place) → self.now.last ≡ Some place → IsSomeAnd result (λ edited.
            (edited.place ≡ place) × Lists self.now.rows edited.report × Lists self.now.made edited.made) }
    {
        match self.last {
            Some(place) => Some(Edited {
                place,
                report: list_rows(alloc, &self.rows),
                made: list_rows(alloc, &self.made),
            }),
            None => None,
        }
    }
}

/// No rows. If nothing is to be reported, there is no report.
fn no_rows(alloc: Global, reports: bool) -> Option<RowSet>
    ensures { NamesNothing reports result }
{
    if reports {
        Some(BTreeMap::new(alloc))
    } else {
        None
    }
}

/// Adds what an edit reports to the rows that others report. If one of the two is missing, or memory runs
/// out, there is no report.
fn join(joint: &mut Option<RowSet>, report: &Option<Vec<Changed>>)
    ensures { Adds joint.old report.now joint.new }
{
    let Some(mut rows) = joint.take() else {
        return;
    };
    let Some(report) = report else {
        return;
    };
    match add_rows(&mut rows, report) {
        Ok(()) => *joint = Some(rows),
        Err(_) => {}
    }
}

/// Adds rows to others. Refused for memory.
fn add_rows(rows: &mut RowSet, named: &[Changed]) -> Result<(), AllocError>
    ensures { OnOk result ((id : ℕ) → (key : List Part) → names rows.new id key
        ≡ (names rows.old id key || is_reported named.now id key)) }
{
    for row in named {
        let (id, key) = (row.id, row.key);
        put(rows, NamedRow { id, key }, ())?;
    }
    Ok(())
}

/// The rows as a list; `None` if they aren't reported, or memory runs out.
fn list_rows(alloc: Global, rows: &Option<RowSet>) -> Option<Vec<Changed>>
    ensures { Lists rows.now result }
{
    match rows {
        Some(rows) => list_of(alloc, rows).ok(),
        None => None,
    }
}

/// The rows, in order. Refused for memory.
fn list_of(alloc: Global, rows: &RowSet) -> Result<Vec<Changed>, AllocError>
    ensures { IfOk result (λ list. list.items ≡ list_map row_of (map.entries (seen row_cmp rows.now))) }
{
    entries(rows)
        .map(|(row, _mark)| Changed {
            id: row.id,
            key: row.key,
        })
        .collect(alloc)
}
