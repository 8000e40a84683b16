// Copies of types and signatures. The tree stands below; tables of signatures above.
ghost use Rattle.std.specs.Prelude.{◌≡◌, IfOk};

use crate::tree::{FieldSig, JType, Sig};
use clean_base::Seq;
use std::alloc::{AllocError, Global};

impl JType {
    /// The same type once more.
    pub fn copy(&self, alloc: Global) -> Result<JType, AllocError>
        ensures { IfOk result (λ ty. ty ≡ self.now) }
    {
        Ok(JType {
            base: self.base.copy(alloc)?,
            dims: self.dims,
        })
    }
}

// The same types once more.
fn copies(alloc: Global, types: &[JType]) -> Result<Seq<JType>, AllocError>
    ensures { IfOk result (λ copies. copies ≡ types.now) }
{
    let mut copies = Vec::new(alloc);
    for ty in types {
        copies.push(ty.copy(alloc)?)?;
    }
    Ok(Seq::from_vec(copies))
}

impl Sig {
    /// The same signature once more.
    pub fn copy(&self, alloc: Global) -> Result<Sig, AllocError>
        ensures { IfOk result (λ sig. sig ≡ self.now) }
    {
        Ok(Sig {
            class: self.class.copy(alloc)?,
            result: self.result.copy(alloc)?,
            name: self.name.copy(alloc)?,
            params: copies(alloc, self.params.as_slice())?,
        })
    }
}

impl FieldSig {
    /// The same signature once more.
    pub fn copy(&self, alloc: Global) -> Result<FieldSig, AllocError>
        ensures { IfOk result (λ sig. sig ≡ self.now) }
    {
        Ok(FieldSig {
            class: self.class.copy(alloc)?,
            ty: self.ty.copy(alloc)?,
            name: self.name.copy(alloc)?,
        })
    }
}
