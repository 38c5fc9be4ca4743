//! The lines of refused commands.

ghost use Rattle.std.specs.Prelude.{◌≡◌, ◌++◌, IfOk, OnOk};
ghost use Rattle.ft_script.specs.Refusals.{detail, fault_detail, place_text, refused_text};

use crate::numbers::add;
use ft_base::Refused;
use ft_hist::TriggerFault;
use std::alloc::{AllocError, Global};

/// The line of a refused command: the refusal's number, and what else it says.
#[tactic(auto, unfolding(crate::specs::Refusals::refused_text))]
pub fn refused_line(alloc: Global, refused: Refused) -> Result<Vec<u8>, AllocError>
    ensures { IfOk result (λ line. line.items ≡ refused_text refused) }
{
    let mut line = Vec::new(alloc);
    add(&mut line, b"refused ", u64::from(refused.number()))?;
    add_detail(&mut line, refused)?;
    line.extend_from_slice(b"\n")?;
    Ok(line)
}

/// Adds what a refusal says beside its number.
fn add_detail(line: &mut Vec<u8>, refused: Refused) -> Result<(), AllocError>
    ensures { OnOk result (line.new.items ≡ line.old.items ++ detail refused) }
{
    match refused {
        Refused::BadLine(number, fault) => {
            add(line, b": line ", number)?;
            add(line, b" fault ", u64::from(fault.number()))
        }
        Refused::LaneHeld(cpu) | Refused::NoLane(cpu) => add(line, b": cpu ", u64::from(cpu)),
        Refused::BadTrigger(fault) => {
            add(line, b": fault ", u64::from(fault.number()))?;
            add_fault(line, fault)
        }
        Refused::BadFilter(fault) => {
            add(line, b": filter ", u64::from(fault.number()))?;
            add_place(line, fault.place())
        }
        Refused::InUse(id) | Refused::NameTaken(id) => add(line, b": trigger ", u64::from(id)),
        // The number of any other says all.
        _ => Ok(()),
    }
}

/// Adds what a trigger's fault says beside its number: where it is, and of a filter's fault which
/// one and where in the filter's text.
fn add_fault(line: &mut Vec<u8>, fault: TriggerFault) -> Result<(), AllocError>
    ensures { OnOk result (line.new.items ≡ line.old.items ++ fault_detail fault) }
{
    match fault {
        TriggerFault::BadFilter(reason) => {
            add(line, b" filter ", u64::from(reason.number()))?;
            add_place(line, reason.place())
        }
        _ => add_place(line, fault.place()),
    }
}

/// Adds where a fault is, if it has a place.
fn add_place(line: &mut Vec<u8>, place: Option<usize>) -> Result<(), AllocError>
    ensures { OnOk result (line.new.items ≡ line.old.items ++ place_text place) }
{
    match place {
        Some(place) => add(line, b" at ", place as u64),
        None => Ok(()),
    }
}
