// The text of a call graph: a line for each open call, and the number of methods.
ghost use Rattle.std.specs.Prelude.{◌≡◌, ◌++◌, OnOk, IfOk, flat_map};
ghost use Rattle.clean_top.specs.Graph.{call_text, drawn};

use crate::output::Output;
use call_graph::{CallEdge, CallGraph};
use class_table::ClassTable;
use clean_base::Seq;
use leak_report::{write_count, write_method_at, write_place};
use std::alloc::{AllocError, Global};

fn write_call(out: &mut Vec<u8>, table: &ClassTable, call: CallEdge) -> Result<(), AllocError>
    ensures { OnOk result (out.new.items ≡ out.old.items ++ call_text table.now call) }
{
    out.extend_from_slice(b"call ")?;
    write_method_at(out, table, call.caller)?;
    write_place(out, call.place)?;
    out.extend_from_slice(b" to ")?;
    write_method_at(out, table, call.target)?;
    out.extend_from_slice(b"\n")
}

fn write_calls(out: &mut Vec<u8>, table: &ClassTable, calls: &[CallEdge]) -> Result<(), AllocError>
    ensures { OnOk result (out.new.items ≡ out.old.items ++ flat_map (call_text table.now) calls.now) }
{
    for call in calls {
        write_call(out, table, *call)?;
    }
    Ok(())
}

/// The graph of these classes as text.
pub fn draw(alloc: Global, table: &ClassTable, graph: &CallGraph) -> Result<Output, AllocError>
    ensures { IfOk result (λ o. o ≡ drawn table.now graph.now) }
{
    let mut text = Vec::new(alloc);
    write_calls(&mut text, table, graph.calls.as_slice())?;
    write_count(
        &mut text,
        b"methods ",
        graph.reached.as_slice().len() as u64,
    )?;
    Ok(Output {
        text: Seq::from_vec(text),
        leaky: false,
    })
}
