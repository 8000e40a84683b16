// Schedules, read line by line. `order` and what all lists share stand below.
ghost use Rattle.std.specs.Prelude.{◌≡◌, List, IfOk, IfErr, OnOk};
ghost use Rattle.clean_base.specs.declared.fault.InputFault.{InputFault};
ghost use Rattle.list_lines.specs.Lines.{trimmed, list_lines};
ghost use Rattle.event_schedule.specs.Schedules.{IsFirstFault, IsList, Refused};
ghost use Rattle.event_schedule.specs.Reading.{Adds, RefusesLine, stop_of};
ghost use Rattle.event_schedule.specs.declared.order.Order.{Order};

use crate::order::{Order, read_order};
use bstr::ByteSlice;
use clean_base::{InputFault, Stop};
use list_lines::{is_passed_over, trimmed};
use std::alloc::{AllocError, AllocFailed, Global};

/// Why a line is refused: it isn't understood, or memory ran out.
#[derive(Clone, Copy, Debug)]
enum Refusal {
    Bad,
    Memory,
}

impl From<AllocError> for Refusal {
    ghost use Rattle.std.specs.Prelude.{◌≡◌};
    ghost use Rattle.event_schedule.specs.declared.schedule.Refusal.TheVariants.{Memory};

    ghost from_gives = { λ _ e. e ≡ Memory };

    fn from(_e: AllocError) -> Refusal {
        Refusal::Memory
    }
}

impl<T: Drop> From<AllocFailed<T>> for Refusal {
    ghost use Rattle.std.specs.Prelude.{◌≡◌};
    ghost use Rattle.event_schedule.specs.declared.schedule.Refusal.TheVariants.{Memory};

    ghost from_gives = { λ _ e. e ≡ Memory };

    fn from(_e: AllocFailed<T>) -> Refusal {
        Refusal::Memory
    }
}

// Takes a line, which is passed over or gives one order.
fn take_line(alloc: Global, line: &[u8], orders: &mut Vec<Order>) -> Result<(), Refusal>
    ensures adds { OnOk result (Adds (trimmed line.now) orders.old.items orders.new.items) }
    ensures refused { IfErr result (RefusesLine (trimmed line.now)) }
{
    let text = trimmed(line);
    if is_passed_over(text) {
        return Ok(());
    }
    let Some(order) = read_order(alloc, text)? else {
        return Err(Refusal::Bad);
    };
    orders.push(order)?;
    Ok(())
}

fn stop_of(refusal: Refusal, file: u32, line: u64) -> Stop
    ensures { result ≡ stop_of refusal file line }
{
    match refusal {
        Refusal::Bad => Stop::Fault(InputFault::BadLine { file, line }),
        Refusal::Memory => Stop::OutOfMemory,
    }
}

/// The orders of a schedule. `file` is the file's place in the order of reading, as faults name it.
///
/// An error is want of memory, or `BadLine` at the first line that isn't understood (docs/FORMATS.md, "Schedules").
pub fn read_schedule(alloc: Global, bytes: &[u8], file: u32) -> Result<Vec<Order>, Stop>
    ensures ok { IfOk result (λ orders. IsList bytes.now orders.items) }
    ensures only { IfOk result (λ orders. (others : List Order) → IsList bytes.now others → others ≡ orders.items) }
    ensures faultless { OnOk result ((fault : InputFault) → IsFirstFault file (list_lines bytes.now) fault → ⊥) }
    ensures err { IfErr result (Refused file bytes.now) }
{
    let mut orders = Vec::new(alloc);
    let mut number = 0u64;
    for line in bytes.lines() {
        number += 1;
        match take_line(alloc, line, &mut orders) {
            Ok(()) => {}
            Err(refusal) => return Err(stop_of(refusal, file, number)),
        }
    }
    Ok(orders)
}
