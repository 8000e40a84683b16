// What is known of a statement by its view, and the locals of a method. Views and trees stand below, programs above.
ghost use Rattle.std.specs.Prelude.{◌≡◌, ◌↔◌, IsTrue};
ghost use Rattle.program_code.specs.App.{locals_of};
ghost use Rattle.program_code.specs.Views.{Takes, Raises};

use access_path::{Base, View};
use jimple_tree::{Local, Method};

// Whether it takes the exception that is on its way.
pub(crate) fn takes(view: &View) -> bool
    ensures { IsTrue result ↔ Takes view.now }
{
    match view {
        View::Copy { from, .. } => *from == Base::Thrown,
        _ => false,
    }
}

/// Whether an exception may leave the statement that is seen so.
pub fn raises(view: &View) -> bool
    ensures { IsTrue result ↔ Raises view.now }
{
    match view {
        View::Throw { .. } => true,
        View::Call(call) => call.is_open,
        _ => false,
    }
}

// The locals of a method, or none where it has no body.
pub(crate) fn locals_of(method: &Method) -> &[Local]
    ensures { result.now ≡ locals_of method.now }
{
    match &method.body {
        Some(body) => body.locals.as_slice(),
        None => &[],
    }
}
