// Small parts of the generated class: names, types, arguments. Trees of classes stand below; calls and blocks above.
ghost use Rattle.std.specs.Prelude.{◌≡◌, IfOk, [], ◌∷◌, map};
ghost use Rattle.dummy_main.specs.Lifecycle.{type_of};
ghost use Rattle.dummy_main.specs.Layout.{argument, literal};

use crate::callback::TypeName;
use clean_base::{Name, Seq};
use jimple_tree::{Imm, JType};
use std::alloc::{AllocError, Global};

pub(crate) fn name_of(alloc: Global, text: &str) -> Result<Name, AllocError>
    ensures { IfOk result (λ name. name ≡ text.now) }
{
    Ok(Name::from_vec(Vec::from_slice(alloc, text.as_bytes())?))
}

pub(crate) fn none<T>(alloc: Global) -> Seq<T>
    ensures { result ≡ [] }
{
    Seq::from_vec(Vec::new(alloc))
}

pub(crate) fn one<T: Drop>(alloc: Global, item: T) -> Result<Seq<T>, AllocError>
    ensures { IfOk result (λ items. items ≡ item ∷ []) }
{
    let mut items = Vec::new(alloc);
    items.push(item)?;
    Ok(Seq::from_vec(items))
}

fn named(alloc: Global, base: &str, dims: u64) -> Result<JType, AllocError>
    ensures { IfOk result (λ ty. ty ≡ record { base = base.now; dims = dims }) }
{
    Ok(JType {
        base: name_of(alloc, base)?,
        dims,
    })
}

pub(crate) fn make_type(alloc: Global, ty: TypeName) -> Result<JType, AllocError>
    ensures { IfOk result (λ made. made ≡ type_of ty) }
{
    match ty {
        TypeName::Void => named(alloc, "void", 0),
        TypeName::Int => named(alloc, "int", 0),
        TypeName::Boolean => named(alloc, "boolean", 0),
        TypeName::Bundle => named(alloc, "android.os.Bundle", 0),
        TypeName::Context => named(alloc, "android.content.Context", 0),
        TypeName::Intent => named(alloc, "android.content.Intent", 0),
        TypeName::Binder => named(alloc, "android.os.IBinder", 0),
        TypeName::Uri => named(alloc, "android.net.Uri", 0),
        TypeName::Cursor => named(alloc, "android.database.Cursor", 0),
        TypeName::Values => named(alloc, "android.content.ContentValues", 0),
        TypeName::Text => named(alloc, "java.lang.String", 0),
        TypeName::Texts => named(alloc, "java.lang.String", 1),
    }
}

pub(crate) fn literal_of(alloc: Global, text: &str) -> Result<Imm, AllocError>
    ensures { IfOk result (λ imm. imm ≡ literal text.now) }
{
    Ok(Imm::Literal(name_of(alloc, text)?))
}

fn make_argument(alloc: Global, ty: TypeName) -> Result<Imm, AllocError>
    ensures { IfOk result (λ made. made ≡ argument ty) }
{
    match ty {
        TypeName::Int => literal_of(alloc, "0"),
        _ => literal_of(alloc, "null"),
    }
}

pub(crate) fn make_types(alloc: Global, types: &[TypeName]) -> Result<Seq<JType>, AllocError>
    ensures { IfOk result (λ made. made ≡ map type_of types.now) }
{
    let mut made = Vec::new(alloc);
    for ty in types {
        made.push(make_type(alloc, *ty)?)?;
    }
    Ok(Seq::from_vec(made))
}

pub(crate) fn make_arguments(alloc: Global, types: &[TypeName]) -> Result<Seq<Imm>, AllocError>
    ensures { IfOk result (λ made. made ≡ map argument types.now) }
{
    let mut made = Vec::new(alloc);
    for ty in types {
        made.push(make_argument(alloc, *ty)?)?;
    }
    Ok(Seq::from_vec(made))
}
