// The numbers of classes, methods and statements as text.
ghost use Rattle.std.specs.Prelude.{◌≡◌, IfOk};
ghost use Rattle.clean_top.specs.Count.{counted};

use crate::output::Output;
use class_table::ClassTable;
use clean_base::Seq;
use leak_report::write_count;
use std::alloc::{AllocError, Global};

/// How many classes, methods with a body and statements there are.
pub fn count(alloc: Global, table: &ClassTable) -> Result<Output, AllocError>
    ensures { IfOk result (λ o. o ≡ counted table.now) }
{
    let mut text = Vec::new(alloc);
    write_count(&mut text, b"classes ", table.given().len() as u64)?;
    write_count(&mut text, b"methods ", table.methods() as u64)?;
    write_count(&mut text, b"statements ", table.stmts() as u64)?;
    Ok(Output {
        text: Seq::from_vec(text),
        leaky: false,
    })
}
