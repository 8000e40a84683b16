// What every crate stands on: ids, small lists, names, limits, faults, the devices that the program reads and writes, and
// what workers pass and count.
// Nothing stands below but std; nothing here knows Jimple, flow rules or the solver.
#![tactic(auto)]

pub mod device;
pub mod fault;
pub mod fields;
pub mod gate;
pub mod ids;
pub mod limits;
pub mod memory;
pub mod plain;
pub mod put;
pub mod read;
pub mod real;
pub mod seq;

pub use device::{Failed, Shelf, Sink};
pub use fault::{Form, InputFault, Stop};
pub use fields::Fields;
pub use gate::{Counted, Gate, Open};
pub use ids::{ClassId, FieldId, LocalId, MethodId, StmtId};
pub use memory::{MemFile, MemShelf, MemSink, NullSink, SureShelf};
pub use plain::Plain;
pub use put::{WriteFault, put_all};
pub use read::{ReadStop, read_all};
pub use real::{StdShelf, StdSink};
pub use seq::{Name, Seq, Word};
