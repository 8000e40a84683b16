// Dense numbers for the parts of a program.
ghost use Rattle.std.proofs.Common.{rules};

use crate::Plain;

/// A class name that a program gives or names as a supertype.
#[derive(Clone, Copy, Debug, PartialEq, Eq, PartialOrd, Ord, Hash)]
pub struct ClassId(pub u32);

/// A method with a body.
#[derive(Clone, Copy, Debug, PartialEq, Eq, PartialOrd, Ord, Hash)]
pub struct MethodId(pub u32);

/// A statement, numbered through all bodies of the program.
#[derive(Clone, Copy, Debug, PartialEq, Eq, PartialOrd, Ord, Hash)]
pub struct StmtId(pub u32);

/// A field of the program. `FieldId(0)` is `[]`, the elements of an array, and `FieldId(1)` is `inside`.
#[derive(Clone, Copy, Debug, PartialEq, Eq, PartialOrd, Ord, Hash)]
pub struct FieldId(pub u32);

/// A local of a body.
#[derive(Clone, Copy, Debug, PartialEq, Eq, PartialOrd, Ord, Hash)]
pub struct LocalId(pub u16);

impl Plain for ClassId {
    ghost exact = { λ x y h. Prim.search rules };
}

impl Plain for MethodId {
    ghost exact = { λ x y h. Prim.search rules };
}

impl Plain for StmtId {
    ghost exact = { λ x y h. Prim.search rules };
}

impl Plain for FieldId {
    ghost exact = { λ x y h. Prim.search rules };
}

impl Plain for LocalId {
    ghost exact = { λ x y h. Prim.search rules };
}
