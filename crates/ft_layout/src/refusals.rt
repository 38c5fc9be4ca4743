//! Refusals as numbers, and back.

ghost use Rattle.std.specs.Prelude.{◌≡◌, ◌↔◌, Some};
ghost use Rattle.ft_layout.specs.Refusals.{no_refusal, refusal_layout, with_number, with_detail, with_trigger_fault, with_filter_fault, with_place, is_same, refusal_in, numbered, filter_faults, trigger_faults, trigger_fault_of, refusals};

use ft_base::Refused;
use ft_event::LineFault;
use ft_filter::FilterFault;
use ft_hist::TriggerFault;

/// Why a call was refused. What doesn't belong to the number is 0.
#[repr(C)]
#[derive(Clone, Copy, Debug)]
pub struct RefusalLayout {
    /// The refusal's number, as `Refused::number` has it; 0 if nothing was refused.
    pub number: u32,
    /// The number of the fault of a trace line, or of a trigger's text.
    pub fault: u32,
    /// The number of the fault of a filter's text.
    pub filter_fault: u32,
    /// The CPU.
    pub cpu: u32,
    /// The id of a trigger.
    pub trigger: u32,
    /// Whether the fault has a place.
    pub has_place: bool,
    /// The line of a trace, from 1.
    pub line: u64,
    /// The byte of the text that the fault is at, from 0.
    pub place: u64,
}

/// The faults of trace lines, in the order of their numbers.
const LINE_FAULTS: [LineFault; 7] = [
    LineFault::NoTask,
    LineFault::BadCpu,
    LineFault::BadStamp,
    LineFault::BadPayload,
    LineFault::NumberRange,
    LineFault::NameLong,
    LineFault::LineLong,
];

impl RefusalLayout {
    /// The refusal as C has it, or that nothing was refused.
    pub fn of(refused: Option<Refused>) -> RefusalLayout
        ensures { result ≡ refusal_layout refused }
    {
        match refused {
            Some(refused) => RefusalLayout::numbered(refused).with_detail(refused),
            None => RefusalLayout::none(),
        }
    }

    /// Nothing was refused.
    fn none() -> RefusalLayout
        ensures { result ≡ no_refusal }
    {
        RefusalLayout {
            number: 0,
            fault: 0,
            filter_fault: 0,
            cpu: 0,
            trigger: 0,
            has_place: false,
            line: 0,
            place: 0,
        }
    }

    /// Only the refusal's number.
    fn numbered(refused: Refused) -> RefusalLayout
        ensures { result ≡ with_number refused }
    {
        RefusalLayout {
            number: u32::from(refused.number()),
            ..RefusalLayout::none()
        }
    }

    /// With what a refusal says beside its number.
    fn with_detail(self, refused: Refused) -> RefusalLayout
        ensures { result ≡ with_detail self refused }
    {
        match refused {
            Refused::BadLine(line, fault) => RefusalLayout {
                line,
                fault: u32::from(fault.number()),
                ..self
            },
            Refused::LaneHeld(cpu) | Refused::NoLane(cpu) => RefusalLayout { cpu, ..self },
            Refused::BadTrigger(fault) => self.with_trigger_fault(fault),
            Refused::BadFilter(fault) => self.with_filter_fault(fault),
            Refused::InUse(id) | Refused::NameTaken(id) => RefusalLayout {
                trigger: id,
                ..self
            },
            // The number of any other says all.
            _ => self,
        }
    }

    /// With the fault of a trigger's text.
    fn with_trigger_fault(self, fault: TriggerFault) -> RefusalLayout
        ensures { result ≡ with_trigger_fault self fault }
    {
        let numbered = RefusalLayout {
            fault: u32::from(fault.number()),
            ..self
        };
        let placed = numbered.with_place(fault.place());
        match fault {
            TriggerFault::BadFilter(reason) => placed.with_filter_fault(reason),
            _ => placed,
        }
    }

    /// With the fault of a filter's text.
    fn with_filter_fault(self, fault: FilterFault) -> RefusalLayout
        ensures { result ≡ with_filter_fault self fault }
    {
        let numbered = RefusalLayout {
            filter_fault: u32::from(fault.number()),
            ..self
        };
        numbered.with_place(fault.place())
    }

    /// With the place of a fault, if it has one.
    fn with_place(self, place: Option<usize>) -> RefusalLayout
        ensures { result ≡ with_place self place }
    {
        match place {
            Some(place) => RefusalLayout {
                has_place: true,
                place: place as u64,
                ..self
            },
            None => self,
        }
    }

    /// Whether all numbers are the same.
    fn is_same(&self, other: &RefusalLayout) -> bool
        ensures { result ≡ is_same self.now other.now }
    {
        self.number == other.number
            && self.fault == other.fault
            && self.filter_fault == other.filter_fault
            && self.cpu == other.cpu
            && self.trigger == other.trigger
            && self.has_place == other.has_place
            && self.line == other.line
            && self.place == other.place
    }

    /// The faults of filters, at its place if they have one, in the order of their numbers.
    fn filter_faults(&self) -> [FilterFault; 7]
        ensures { result ≡ filter_faults self.now }
    {
        let place = self.place as usize;
        [
            FilterFault::Memory,
            FilterFault::Syntax(place),
            FilterFault::NoField(place),
            FilterFault::WrongKind(place),
            FilterFault::BadGlob(place),
            FilterFault::NumberRange(place),
            FilterFault::TooDeep,
        ]
    }

    /// The fault of a filter with its number.
    fn filter_fault(&self) -> Option<FilterFault>
        ensures { result ≡ numbered (filter_faults self.now) self.now.filter_fault }
    {
        item_numbered(&self.filter_faults(), self.filter_fault)
    }

    /// The faults of triggers, at its place if they have one, in the order of their numbers; the
    /// last is none if it has no fault of a filter.
    fn trigger_faults(&self) -> [Option<TriggerFault>; 11]
        ensures { result ≡ trigger_faults self.now }
    {
        let place = self.place as usize;
        [
            Some(TriggerFault::Memory),
            Some(TriggerFault::Syntax(place)),
            Some(TriggerFault::NoField),
            Some(TriggerFault::NotNumeric),
            Some(TriggerFault::TooMany),
            Some(TriggerFault::Duplicate),
            Some(TriggerFault::BadSize),
            Some(TriggerFault::BadSort),
            Some(TriggerFault::BadModifier),
            Some(TriggerFault::LeftOut(place)),
            self.filter_fault().map(TriggerFault::BadFilter),
        ]
    }

    /// The fault of a trigger with its number.
    fn trigger_fault(&self) -> Option<TriggerFault>
        ensures { result ≡ trigger_fault_of self.now }
    {
        item_numbered(&self.trigger_faults(), self.fault).flatten()
    }

    /// The refusals in the order of their numbers, each with its numbers; `None` in place of one
    /// for which it has no fault.
    fn refusals(&self) -> [Option<Refused>; 17]
        ensures { result ≡ refusals self.now }
    {
        let line_fault = item_numbered(&LINE_FAULTS, self.fault);
        [
            Some(Refused::Memory),
            Some(Refused::NoFile),
            line_fault.map(|fault| Refused::BadLine(self.line, fault)),
            Some(Refused::LaneHeld(self.cpu)),
            Some(Refused::NoLane(self.cpu)),
            Some(Refused::NoEvent),
            Some(Refused::Full),
            self.trigger_fault().map(Refused::BadTrigger),
            self.filter_fault().map(Refused::BadFilter),
            Some(Refused::NoTrigger),
            Some(Refused::InUse(self.trigger)),
            Some(Refused::NameTaken(self.trigger)),
            Some(Refused::NoVariable),
            Some(Refused::KeyMismatch),
            Some(Refused::TooManyTriggers),
            Some(Refused::BadCommand),
            Some(Refused::NotReading),
        ]
    }

    /// The refusal with its numbers, if what doesn't belong to its number is 0.
    fn refused(&self) -> Option<Refused>
        ensures { result ≡ refusal_in self.now }
    {
        match item_numbered(&self.refusals(), self.number).flatten() {
            Some(refused) if self.is_same(&RefusalLayout::of(Some(refused))) => Some(refused),
            _ => None,
        }
    }
}

/// The refusal that a C struct describes; `None` if its numbers are those of no refusal.
pub fn refusal_in(layout: &RefusalLayout) -> Option<Refused>
    ensures exact { result ≡ refusal_in layout.now }
    ensures meaning { (refused : Refused) →
        (result ≡ Some refused) ↔ (layout.now ≡ refusal_layout (Some refused)) }
{
    layout.refused()
}

/// The item of this number, from 1.
fn item_numbered<T: Copy>(items: &[T], number: u32) -> Option<T>
    ensures { result ≡ numbered items.now number }
{
    if number == 0 {
        return None;
    }
    items.get(number as usize - 1).copied()
}
