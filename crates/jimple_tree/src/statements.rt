// The statements of a method's body. The trees stand below; whoever counts or lists statements above.
ghost use Rattle.std.specs.Prelude.{◌≡◌};
ghost use Rattle.jimple_tree.specs.Bodies.{stmts_of};

use crate::tree::{Method, Stmt};

/// The statements of a method, or none where it has no body.
pub fn stmts_of(method: &Method) -> &[Stmt]
    ensures { result.now ≡ stmts_of method.now }
{
    match &method.body {
        Some(body) => body.stmts.as_slice(),
        None => &[],
    }
}
