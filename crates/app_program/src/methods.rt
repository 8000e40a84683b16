// How many locals each method has. Tables of classes stand below; programs above.
ghost use Rattle.std.specs.Prelude.{◌≡◌, IfOk, length};
ghost use Rattle.clean_base.specs.Lists.{At};
ghost use Rattle.clean_base.specs.declared.ids.MethodId.{MethodId};
ghost use Rattle.jimple_tree.specs.WellFormed.{MethodFits};
ghost use Rattle.jimple_tree.specs.declared.tree.Class.{Class};
ghost use Rattle.jimple_tree.specs.declared.tree.Method.{Method};
ghost use Rattle.class_table.specs.Methods.{all_methods, IsNumber};
ghost use Rattle.program_code.specs.App.{locals_of};

use class_table::ClassTable;
use clean_base::MethodId;
use jimple_tree::Method;
use std::alloc::{AllocError, Global};

// How many locals a method has, of a well formed class.
fn locals_in(method: &Method) -> u32
    requires { MethodFits method.now }
    ensures { result ≡ length (locals_of method.now) }
{
    match &method.body {
        Some(body) => body.locals.as_slice().len() as u32,
        None => 0,
    }
}

/// How many locals each method has.
pub fn locals_of(alloc: Global, table: &ClassTable) -> Result<Vec<u32>, AllocError>
    ensures count { IfOk result (λ v. length v.items ≡ length (all_methods table.now)) }
    ensures each { IfOk result (λ v. (m : MethodId) (c : Class) (k : Method) → IsNumber table.now m c k → At v.items m.0 (length (locals_of k))) }
{
    let _given = table.given();
    let mut locals = Vec::new(alloc);
    for m in 0..table.methods() {
        locals.push(locals_in(table.method(MethodId(m))))?;
    }
    Ok(locals)
}
