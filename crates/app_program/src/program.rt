// The program of classes and a list. Where it is entered and what is gathered of methods and statements stand below; the top
// call above.
ghost use Rattle.std.specs.Prelude.{◌≡◌, ◌<◌, IfErr, IfOk, OnOk, length};
ghost use Rattle.clean_base.specs.declared.fault.InputFault.{InputFault};
ghost use Rattle.class_table.specs.Methods.{all_methods};
ghost use Rattle.field_table.specs.Numbers.{AreFields};
ghost use Rattle.program_code.specs.App.{App};
ghost use Rattle.app_program.specs.Faults.{IsFault, IsOnly, Refused};
ghost use Rattle.app_program.specs.Gathered.{AreGathered};
ghost use Rattle.app_program.specs.Program.{IsProgram};

use crate::code_lists::{CodeLists, GraphLists, lists_of};
use crate::entry::{Entry, root_of};
use class_table::ClassTable;
use clean_base::{MethodId, Stop};
use field_table::FieldTable;
use program_code::{Parts, Program};
use source_sink::Lists;
use statement_graph::StatementLists;
use statement_views::Seen;
use std::alloc::{AllocError, Global};

// The parts of the program of these classes, which is entered at a method.
fn parts_of(
    alloc: Global,
    table: ClassTable,
    lists: &Lists,
    fields: FieldTable,
    root: MethodId,
) -> Result<Parts, AllocError>
    requires fields { AreFields table fields }
    requires root { root.0 < length (all_methods table) }
    ensures gathered { IfOk result (AreGathered table lists.now) }
    ensures fields { IfOk result (λ p. p.fields ≡ fields) }
    ensures root { IfOk result (λ p. p.root ≡ root) }
{
    let CodeLists {
        seen: Seen { views, targets },
        locals,
        graph,
    } = lists_of(alloc, &table, lists, &fields)?;
    let GraphLists {
        statements: StatementLists {
            firsts,
            owners,
            succs,
            preds,
        },
        returns,
        throws,
        closure,
    } = graph;
    Ok(Parts {
        table,
        fields,
        root,
        firsts,
        locals,
        returns,
        throws,
        views,
        owners,
        nexts: succs,
        preds,
        targets,
        closure,
    })
}

/// The program of the classes and the lists, entered where the entry leads.
///
/// An error is the first fault: that the classes can't be entered there, or that there are too many fields; or want of memory.
/// The table is gone then.
pub fn assemble(
    alloc: Global,
    table: ClassTable,
    lists: &Lists,
    entry: &Entry,
) -> Result<Program, Stop>
    ensures ok { IfOk result (IsProgram table lists.now entry.now) }
    ensures one { IfOk result (λ p. (q : App) → IsProgram table lists.now entry.now q → q ≡ p) }
    ensures faultless { OnOk result ((f : InputFault) → IsFault table entry.now f → ⊥) }
    ensures err { IfErr result (Refused table entry.now) }
    ensures only { IfErr result (IsOnly table entry.now) }
{
    // What is known of the classes: they are well formed, and have few methods and statements.
    let _classes = table.given();
    let root = root_of(alloc, &table, entry)?;
    let fields = FieldTable::new(alloc, &table)?;
    match parts_of(alloc, table, lists, fields, root) {
        Ok(parts) => Ok(Program::new(parts)),
        Err(AllocError) => Err(Stop::OutOfMemory),
    }
}
