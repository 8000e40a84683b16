// The events that orders are, for the methods of classes. `order` stands below.
ghost use Rattle.std.specs.Prelude.{◌≡◌, ◌++◌, [], ◌∷◌, IfOk, OnOk, option_to_list};
ghost use Rattle.event_schedule.specs.Ordered.{AreEvents, Orders};

use crate::order::Order;
use class_table::ClassTable;
use ifds_model::Event;
use std::alloc::{AllocError, Global};

// The event that the order is, or none where it retires no method with a body.
fn event_of(order: &Order, classes: &ClassTable) -> Option<Event>
    ensures { Orders classes.now order.now (option_to_list result) }
{
    match order {
        Order::Take { worker, place } => Some(Event::Take {
            worker: *worker,
            place: *place,
        }),
        Order::Commit { worker } => Some(Event::Commit { worker: *worker }),
        Order::Back { worker } => Some(Event::Back { worker: *worker }),
        Order::Retire { sig } => {
            let Some(method) = classes.find_method(sig) else {
                return None;
            };
            Some(Event::Retire { method })
        }
        Order::Sweep => Some(Event::Sweep),
    }
}

/// The events of the orders, in their order. An order to retire what is no method with a body is no event.
pub fn events(
    alloc: Global,
    orders: &[Order],
    classes: &ClassTable,
) -> Result<Vec<Event>, AllocError>
    ensures { IfOk result (λ events. AreEvents classes.now orders.now events.items) }
{
    let mut events = Vec::new(alloc);
    for order in orders {
        if let Some(event) = event_of(order, classes) {
            events.push(event)?;
        }
    }
    Ok(events)
}
