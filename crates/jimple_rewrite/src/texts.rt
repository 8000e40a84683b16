// The canonical texts of the classes of a text. The reader and the writer of classes stand below.
ghost use Rattle.std.specs.Prelude.{◌≡◌, ◌<◌, ◌^◌, List, [], ◌∷◌, All, IfOk, IfErr, length, map};
ghost use Rattle.jimple_tree.specs.Canonical.{canonical};
ghost use Rattle.jimple_tree.specs.WellFormed.{IsWellFormed};
ghost use Rattle.jimple_tree.specs.declared.tree.Class.{Class};
ghost use Rattle.jimple_text.specs.Reads.{Reads};
ghost use Rattle.jimple_text.specs.Settled.{Refused};

use clean_base::{Seq, Stop};
use jimple_text::read_classes;
use jimple_tree::{Class, write_class};
use std::alloc::{AllocError, Global};

// The canonical text of a class.
fn text_of(alloc: Global, class: &Class) -> Result<Seq<u8>, AllocError>
    requires { IsWellFormed class.now }
    ensures { IfOk result (λ text. text ≡ canonical class.now) }
{
    let mut text = Vec::new(alloc);
    write_class(&mut text, class)?;
    Ok(Seq::from_vec(text))
}

// The canonical texts of the classes, in order.
fn texts_of(alloc: Global, classes: &[Class]) -> Result<Vec<Seq<u8>>, AllocError>
    requires { All IsWellFormed classes.now }
    ensures { IfOk result (λ texts. texts.items ≡ map canonical classes.now) }
{
    let mut texts = Vec::with_capacity(alloc, classes.len())?;
    for class in classes {
        let text = text_of(alloc, class)?;
        texts.push(text)?;
    }
    Ok(texts)
}

/// The canonical text of each class of a text, in order. `file` is the file's place in the order of reading, as faults name
/// it.
///
/// Each class that a text gives is the one class that its own canonical text gives, so a text that is written anew keeps
/// its meaning. An error is that of `read_classes`.
pub fn rewrite(alloc: Global, bytes: &[u8], file: u32) -> Result<Vec<Seq<u8>>, Stop>
    requires { length bytes.now < 2 ^ 32 }
    ensures texts { IfOk result (λ texts. (classes : List Class) × Reads bytes.now classes × (texts.items ≡ map canonical classes)) }
    ensures again { (classes : List Class) → Reads bytes.now classes → All (λ c. Reads (canonical c) (c ∷ [])) classes }
    ensures err { IfErr result (Refused file bytes.now) }
{
    let classes = read_classes(alloc, bytes, file)?;
    match texts_of(alloc, classes.as_slice()) {
        Ok(texts) => Ok(texts),
        Err(AllocError) => Err(Stop::OutOfMemory),
    }
}
