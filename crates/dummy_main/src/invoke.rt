// The calls of a component's methods. Callbacks and small parts stand below; blocks above.
ghost use Rattle.std.specs.Prelude.{◌≡◌, ◌<◌, ◌^◌, ◌+◌, IfOk, []};
ghost use Rattle.dummy_main.specs.Lifecycle.{method};
ghost use Rattle.dummy_main.specs.Layout.{call_with, call_of};

use crate::callback::{Callback, TypeName};
use crate::parts::{make_arguments, make_type, make_types, name_of};
use clean_base::{LocalId, Name};
use jimple_tree::{Invoke, InvokeKind, Sig};
use std::alloc::{AllocError, Global};

fn call(
    alloc: Global,
    how: InvokeKind,
    number: u16,
    class: &Name,
    returns: TypeName,
    name: &str,
    params: &[TypeName],
) -> Result<Invoke, AllocError>
    requires { number + 1 < 2 ^ 16 }
    ensures { IfOk result (λ made. made ≡ call_with how number class.now (method returns name.now params.now)) }
{
    Ok(Invoke {
        kind: how,
        base: Some(LocalId(number + 1)),
        sig: Sig {
            class: class.copy(alloc)?,
            result: make_type(alloc, returns)?,
            name: name_of(alloc, name)?,
            params: make_types(alloc, params)?,
        },
        args: make_arguments(alloc, params)?,
    })
}

/// The call of a method on the local of the component with this number.
pub(crate) fn call_of(
    alloc: Global,
    how: InvokeKind,
    number: u16,
    class: &Name,
    callback: Callback,
) -> Result<Invoke, AllocError>
    requires { number + 1 < 2 ^ 16 }
    ensures { IfOk result (λ made. made ≡ call_of how number class.now callback) }
{
    let heading = callback.heading();
    call(
        alloc,
        how,
        number,
        class,
        heading.result,
        heading.name,
        heading.params,
    )
}
