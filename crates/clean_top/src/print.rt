// A class as text.
ghost use Rattle.std.specs.Prelude.{◌≡◌, IfOk};
ghost use Rattle.jimple_tree.specs.WellFormed.{IsWellFormed};
ghost use Rattle.clean_top.specs.Count.{printed};

use crate::output::Output;
use clean_base::Seq;
use jimple_tree::{Class, write_class};
use std::alloc::{AllocError, Global};

/// The canonical text of a class.
pub fn print(alloc: Global, class: &Class) -> Result<Output, AllocError>
    requires { IsWellFormed class.now }
    ensures { IfOk result (λ o. o ≡ printed class.now) }
{
    let mut text = Vec::new(alloc);
    write_class(&mut text, class)?;
    Ok(Output {
        text: Seq::from_vec(text),
        leaky: false,
    })
}
