// The texts of types, signatures, operands and calls.
// Statements stand above, names below.
ghost use Rattle.std.specs.Prelude.{◌≡◌, ◌++◌, ◌<◌, codes, OnOk, All};
ghost use Rattle.std.specs.List.{flat_map};
ghost use Rattle.jimple_tree.specs.Operands.{
  args_text,
  base_dot_text,
  base_text,
  brackets,
  field_sig_text,
  imm_text,
  invoke_text,
  kind_text,
  local_text,
  sig_head,
  sig_text,
  type_text,
  types_text,
};
ghost use Rattle.jimple_tree.specs.WellFormed.{BaseFits, ImmFits, InvokeFits, LocalFits};

use crate::names::{is_primitive, write_name, write_quoted_name};
use crate::tree::{Body, FieldSig, Imm, Invoke, InvokeKind, JType, Sig};
use clean_base::LocalId;
use std::alloc::AllocError;

/// Writes `[]` as often as told.
pub(crate) fn write_brackets(out: &mut Vec<u8>, count: u64) -> Result<(), AllocError>
    ensures { OnOk result (out.new.items ≡ out.old.items ++ brackets count) }
{
    for _ in 0..count {
        out.extend_from_slice(b"[]")?;
    }
    Ok(())
}

#[tactic(auto, unfolding(crate::specs::Operands::base_text))]
fn write_base(out: &mut Vec<u8>, base: &[u8]) -> Result<(), AllocError>
    ensures { OnOk result (out.new.items ≡ out.old.items ++ base_text base.now) }
{
    if is_primitive(base) {
        out.extend_from_slice(base)
    } else {
        write_name(out, base)
    }
}

pub(crate) fn write_type(out: &mut Vec<u8>, ty: &JType) -> Result<(), AllocError>
    ensures { OnOk result (out.new.items ≡ out.old.items ++ type_text ty.now) }
{
    write_base(out, ty.base.bytes())?;
    write_brackets(out, ty.dims)
}

/// Writes each type behind a comma.
fn write_more_types(out: &mut Vec<u8>, types: &[JType]) -> Result<(), AllocError>
    ensures { OnOk result (out.new.items ≡ out.old.items ++ flat_map (λ t. codes "," ++ type_text t) types.now) }
{
    for ty in types {
        out.extend_from_slice(b",")?;
        write_type(out, ty)?;
    }
    Ok(())
}

/// Writes the types of a signature or of a heading.
pub(crate) fn write_types(out: &mut Vec<u8>, types: &[JType]) -> Result<(), AllocError>
    ensures { OnOk result (out.new.items ≡ out.old.items ++ types_text types.now) }
{
    match types {
        [] => Ok(()),
        [first, rest @ ..] => {
            write_type(out, first)?;
            write_more_types(out, rest)
        }
    }
}

/// Writes what a signature and a field signature begin with.
fn write_sig_head(
    out: &mut Vec<u8>,
    class: &[u8],
    ty: &JType,
    name: &[u8],
) -> Result<(), AllocError>
    ensures { OnOk result (out.new.items ≡ out.old.items ++ sig_head class.now ty.now name.now) }
{
    out.extend_from_slice(b"<")?;
    write_quoted_name(out, class)?;
    out.extend_from_slice(b": ")?;
    write_type(out, ty)?;
    out.extend_from_slice(b" ")?;
    write_name(out, name)
}

fn write_sig(out: &mut Vec<u8>, sig: &Sig) -> Result<(), AllocError>
    ensures { OnOk result (out.new.items ≡ out.old.items ++ sig_text sig.now) }
{
    write_sig_head(out, sig.class.bytes(), &sig.result, sig.name.bytes())?;
    out.extend_from_slice(b"(")?;
    write_types(out, sig.params.as_slice())?;
    out.extend_from_slice(b")>")
}

pub(crate) fn write_field_sig(out: &mut Vec<u8>, sig: &FieldSig) -> Result<(), AllocError>
    ensures { OnOk result (out.new.items ≡ out.old.items ++ field_sig_text sig.now) }
{
    write_sig_head(out, sig.class.bytes(), &sig.ty, sig.name.bytes())?;
    out.extend_from_slice(b">")
}

pub(crate) fn write_local(out: &mut Vec<u8>, body: &Body, local: LocalId) -> Result<(), AllocError>
    requires { LocalFits body.now local }
    ensures { OnOk result (out.new.items ≡ out.old.items ++ local_text body.now local) }
{
    let locals = body.locals.as_slice();
    write_name(out, locals[local.0 as usize].name.bytes())
}

pub(crate) fn write_imm(out: &mut Vec<u8>, body: &Body, imm: &Imm) -> Result<(), AllocError>
    requires { ImmFits body.now imm.now }
    ensures { OnOk result (out.new.items ≡ out.old.items ++ imm_text body.now imm.now) }
{
    match imm {
        Imm::Local(local) => write_local(out, body, *local),
        Imm::Literal(text) => out.extend_from_slice(text.bytes()),
    }
}

/// Writes each argument behind a comma and a space.
fn write_more_args(out: &mut Vec<u8>, body: &Body, args: &[Imm]) -> Result<(), AllocError>
    requires { All (ImmFits body.now) args.now }
    ensures { OnOk result (out.new.items ≡ out.old.items ++ flat_map (λ a. codes ", " ++ imm_text body.now a) args.now) }
{
    for arg in args {
        out.extend_from_slice(b", ")?;
        write_imm(out, body, arg)?;
    }
    Ok(())
}

fn write_args(out: &mut Vec<u8>, body: &Body, args: &[Imm]) -> Result<(), AllocError>
    requires { All (ImmFits body.now) args.now }
    ensures { OnOk result (out.new.items ≡ out.old.items ++ args_text body.now args.now) }
{
    match args {
        [] => Ok(()),
        [first, rest @ ..] => {
            write_imm(out, body, first)?;
            write_more_args(out, body, rest)
        }
    }
}

fn write_kind(out: &mut Vec<u8>, kind: InvokeKind) -> Result<(), AllocError>
    ensures { OnOk result (out.new.items ≡ out.old.items ++ kind_text kind) }
{
    match kind {
        InvokeKind::Static => out.extend_from_slice(b"staticinvoke "),
        InvokeKind::Virtual => out.extend_from_slice(b"virtualinvoke "),
        InvokeKind::Interface => out.extend_from_slice(b"interfaceinvoke "),
        InvokeKind::Special => out.extend_from_slice(b"specialinvoke "),
    }
}

/// Writes a call's base and a dot, where it has one.
fn write_receiver(out: &mut Vec<u8>, body: &Body, invoke: &Invoke) -> Result<(), AllocError>
    requires { BaseFits body.now invoke.now.kind invoke.now.base }
    ensures { OnOk result (out.new.items ≡ out.old.items ++ base_dot_text body.now invoke.now.base) }
{
    match invoke.base {
        None => Ok(()),
        Some(base) => {
            write_local(out, body, base)?;
            out.extend_from_slice(b".")
        }
    }
}

pub(crate) fn write_invoke(
    out: &mut Vec<u8>,
    body: &Body,
    invoke: &Invoke,
) -> Result<(), AllocError>
    requires { InvokeFits body.now invoke.now }
    ensures { OnOk result (out.new.items ≡ out.old.items ++ invoke_text body.now invoke.now) }
{
    write_kind(out, invoke.kind)?;
    write_receiver(out, body, invoke)?;
    write_sig(out, &invoke.sig)?;
    out.extend_from_slice(b"(")?;
    write_args(out, body, invoke.args.as_slice())?;
    out.extend_from_slice(b")")
}
