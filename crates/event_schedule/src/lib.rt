// Schedules of events: the orders that their lines give, and the events that these are for the methods of classes
// (docs/FORMATS.md, "Schedules"). What all lists share (`list_lines`), the text of signatures (`source_sink`), the table of
// classes and the events of a solver's state (`ifds_model`) stand below; the top call above.
#![tactic(auto)]

mod event;
mod number;
mod order;
mod schedule;

pub use event::events;
pub use order::Order;
pub use schedule::read_schedule;
