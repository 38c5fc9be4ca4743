//! What is kept, as events come and go, and as triggers join and leave.

ghost use Rattle.std.specs.Prelude.{◌≡◌, ◌⊎◌, ◌+◌, ◌≤◌, None, Some, IfSome};
ghost use Rattle.std.specs.FinMap as map;
ghost use Rattle.ft_lanes.specs.Held.{Lane};
ghost use Rattle.ft_replay.specs.Chosen.{lanes_of};
ghost use Rattle.ft_replay.specs.Merged.{merged};
ghost use Rattle.ft_answers.specs.Costs.{count_on_lane, family_tests};
ghost use Rattle.ft_answers.specs.Counting.{MakesNothing};
ghost use Rattle.ft_answers.specs.Deferral.{IsPlainLane, ReadsNothing};
ghost use Rattle.ft_base.specs.OneTrigger.{IsUnread, base_without, is_in_family};
ghost use Rattle.ft_repair.specs.ButOneTrigger.{AreKeptBut};
ghost use Rattle.ft_repair.specs.Outside.{AreKeptOutside};
ghost use Rattle.ft_repair.specs.SomeLanes.{count_coming};
ghost use Rattle.ft_kept.specs.Repairs.{IsHeldAt};
ghost use Rattle.ft_repair.specs.OneEvent.{ChangeCosts, EventNeedsNoMemory};
ghost use Rattle.ft_board.specs.Makers.{LeavesMade, LeavesMakers};
ghost use Rattle.ft_board.specs.inner.Edits.{AreAfter, AreBefore, Edit, IsEdit, ReportsEdit};
ghost use Rattle.ft_board.specs.inner.Reported.{IsReportBy};
ghost use Rattle.ft_board.specs.inner.Views.{AreFresh, AreOf, AwaitTrigger, EndsAs};

use crate::laws::made_events_stay;
use crate::made_rows::made_rows;
use crate::views::Views;
use ft_answers::{Done, Edited, Kept};
use ft_base::{Content, Place};
use ft_changes::Changed;
use ft_fields::{Event, Pos};
use ft_kept::{Changes, Delta, Log, Sign, changed_rows};
use ft_maps::take;
use ft_repair::{join, kept_shelves, leave, let_change, let_lane_go, let_lanes_come};

impl Views {
    /// Adds a held event to what is kept, or removes it, and returns its place and which rows may have
    /// changed. If memory runs out, the shelves are given up. That can't happen if the event comes and
    /// no trigger hits it, or if it goes and only triggers without a variable hit it.
    pub(crate) fn change(
        &mut self,
        sign: Sign,
        pos: Pos,
        event: &Event,
        content: &Content,
    ) -> Done<Edited>
        requires held { IsHeldAt content.now.lanes pos event.now }
        requires before { AreBefore sign content.now pos self.old }
        ensures after { AreAfter sign content.now pos self.new }
        ensures place { result.value.place ≡ record { cpu = pos.cpu; line = pos.line } }
        ensures ends { EndsAs result.kept self.old self.new }
        ensures now { EventNeedsNoMemory sign content.now.triggers event.now
            → self.new.shelves ≡ None → self.old.shelves ≡ None }
        ensures costs { MakesNothing content.now.triggers
            → ChangeCosts sign content.now pos event.now self.old.work self.new.work }
        ensures reports { (edit : Edit) → IsEdit sign content.now pos edit
            → ReportsEdit edit self.new result.value }
    {
        kept_shelves();
        ft_kept::reported_rows();
        ft_made::made_counters();
        ft_made::made_tables();
        let delta = Delta { sign, pos, event };
        let changes = &mut self.changes_to_report(content);
        changes.keys = Log::new(self.alloc);
        let_change(&mut self.shelves, content, &delta, changes, &mut self.work);
        let made = made_rows(self.alloc, content, &self.made, changes, &mut self.work);
        let kept = self.mend(content, changes);
        let Pos { cpu, line, .. } = pos;
        let value = Edited {
            place: Place { cpu, line },
            report: self.report(content, changes),
            made: self.shelves.as_ref().and(made),
        };
        Done { value, kept }
    }

    /// The rows that may differ with an event and without it, by the keys that were reported as it came
    /// or went and by what is kept after it. `None` if there are no shelves, no keys were reported, or
    /// memory runs out.
    pub(crate) fn report(&self, content: &Content, changes: &Changes) -> Option<Vec<Changed>>
        ensures none { self.now.shelves ≡ None → result ≡ None }
        ensures rows { IfSome result (λ rows.
            IsReportBy content.now.triggers self.now.shelves changes.now.keys rows.items) }
    {
        let tables = self.shelves.as_ref()?;
        let keys = changes.keys.items()?;
        changed_rows(self.alloc, tables, content.triggers(), keys).ok()
    }

    /// Adds the events of all lanes to what is kept, except for those of the CPUs whose events it has,
    /// and returns whether there are shelves then.
    pub(crate) fn let_lanes_come(&mut self, before: &[u16], content: &Content) -> Kept
        requires { AreOf content.now.triggers (merged (lanes_of before.now content.now.lanes))
            self.old }
        ensures fresh { AreFresh content.now self.new }
        ensures ends { EndsAs result self.old self.new }
        ensures evals { MakesNothing content.now.triggers → self.new.work.evals
            ≤ self.old.work.evals + count_coming before.now content.now }
    {
        kept_shelves();
        let changes = &mut self.changes_to_report(content);
        let_lanes_come(&mut self.shelves, content, before, changes, &mut self.work);
        self.mend(content, changes)
    }

    /// Removes the events of a CPU's lane, which is still held, from what is kept, and returns whether
    /// there are shelves then. Events that only triggers without a variable hit take no memory.
    pub(crate) fn let_lane_go(&mut self, cpu: u16, content: &Content) -> Kept
        requires { AreFresh content.now self.old }
        ensures fresh { AreOf content.now.triggers (merged (map.remove content.now.lanes cpu))
            self.new }
        ensures ends { EndsAs result self.old self.new }
        ensures now { IsPlainLane content.now.triggers content.now.lanes cpu
            → self.new.shelves ≡ None → self.old.shelves ≡ None }
        ensures evals { MakesNothing content.now.triggers → (lane : Lane)
            → map.get content.now.lanes cpu ≡ Some lane → self.new.work.evals
            ≤ self.old.work.evals + count_on_lane content.now.triggers lane }
    {
        kept_shelves();
        let changes = &mut self.changes_to_report(content);
        let_lane_go(&mut self.shelves, content, cpu, changes, &mut self.work);
        self.mend(content, changes)
    }

    /// Adds a trigger that was attached, or got another filter, to what is kept, with those that read
    /// what it saves, and returns whether there are shelves then. The tables of made events stay as
    /// they are if it neither counts such events nor bears on those that make them.
    pub(crate) fn join(&mut self, id: u32, content: &Content) -> Kept
        requires shelves { IfSome self.old.shelves (AreKeptOutside
            (is_in_family content.now.triggers id) content.now.triggers content.now.lanes) }
        requires made { AwaitTrigger id content.now self.old }
        ensures fresh { AreFresh content.now self.new }
        ensures ends { EndsAs result self.old self.new }
        ensures evals { MakesNothing content.now.triggers ⊎ LeavesMade content.now.triggers id
            → self.new.work.evals
            ≤ self.old.work.evals + family_tests content.now.triggers content.now.lanes id }
    {
        join(&mut self.shelves, content, id, &mut self.work);
        self.refit(id, content)
    }

    /// Removes a trigger that is still attached, and that no other reads, from what is kept, and returns
    /// whether there are shelves then. One that reads nothing takes no memory. The tables of made
    /// events are those of the others then, unless it bears on those that make them.
    pub(crate) fn leave(&mut self, id: u32, content: &Content) -> Kept
        requires unread { IsUnread content.now.triggers id }
        requires fresh { AreFresh content.now self.old }
        ensures kept { IfSome self.new.shelves (AreKeptBut id content.now) }
        ensures fresh { LeavesMakers content.now.triggers id
            → AreFresh (base_without content.now id) self.new }
        ensures ends { EndsAs result self.old self.new }
        ensures now { ReadsNothing content.now.triggers id
            → self.new.shelves ≡ None → self.old.shelves ≡ None }
        ensures none { ReadsNothing content.now.triggers id → self.new.work ≡ self.old.work }
    {
        made_events_stay();
        leave(&mut self.shelves, content, id, &mut self.work);
        if self.shelves.is_none() {
            return self.give_up();
        }
        take(&mut self.made, &id);
        Kept::Now
    }
}
