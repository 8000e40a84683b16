// Types, methods, places and numbers as outputs print them. Tables of classes stand below; the report, and other outputs,
// above.
ghost use Rattle.std.specs.Prelude.{◌≡◌, ◌++◌, OnOk, codes, decimal, flat_map};
ghost use Rattle.jimple_tree.specs.Printed.{brackets, field_text, type_text, types_text, front_text, method_text};
ghost use Rattle.leak_report.specs.Printed.{method_text_at, place_text, count_text};

use class_table::ClassTable;
use clean_base::{MethodId, Name};
use itoa::Buffer;
use jimple_tree::{FieldSig, JType, Method};
use std::alloc::AllocError;

fn write_number(out: &mut Vec<u8>, n: u64) -> Result<(), AllocError>
    ensures { OnOk result (out.new.items ≡ out.old.items ++ decimal n) }
{
    let mut buffer = Buffer::new();
    out.extend_from_slice(buffer.format(n).as_bytes())
}

fn write_brackets(out: &mut Vec<u8>, dims: u64) -> Result<(), AllocError>
    ensures { OnOk result (out.new.items ≡ out.old.items ++ brackets dims) }
{
    for _pair in 0..dims {
        out.extend_from_slice(b"[]")?;
    }
    Ok(())
}

fn write_type(out: &mut Vec<u8>, ty: &JType) -> Result<(), AllocError>
    ensures { OnOk result (out.new.items ≡ out.old.items ++ type_text ty.now) }
{
    out.extend_from_slice(ty.base.bytes())?;
    write_brackets(out, ty.dims)
}

fn write_types(out: &mut Vec<u8>, types: &[JType]) -> Result<(), AllocError>
    ensures { OnOk result (out.new.items ≡ out.old.items ++ types_text types.now) }
{
    if let [first, rest @ ..] = types {
        write_type(out, first)?;
        return write_more_types(out, rest);
    }
    Ok(())
}

fn write_more_types(out: &mut Vec<u8>, types: &[JType]) -> Result<(), AllocError>
    ensures { OnOk result (out.new.items ≡ out.old.items ++ flat_map (λ u. codes "," ++ type_text u) types.now) }
{
    for ty in types {
        out.extend_from_slice(b",")?;
        write_type(out, ty)?;
    }
    Ok(())
}

// The class and the result type of a method.
fn write_front(out: &mut Vec<u8>, class: &Name, ty: &JType) -> Result<(), AllocError>
    ensures { OnOk result (out.new.items ≡ out.old.items ++ front_text class.now ty.now) }
{
    out.extend_from_slice(b"<")?;
    out.extend_from_slice(class.bytes())?;
    out.extend_from_slice(b": ")?;
    write_type(out, ty)?;
    out.extend_from_slice(b" ")
}

// The text of a method of the class with that name.
fn write_method(out: &mut Vec<u8>, class: &Name, method: &Method) -> Result<(), AllocError>
    ensures { OnOk result (out.new.items ≡ out.old.items ++ method_text class.now method.now) }
{
    write_front(out, class, &method.result)?;
    out.extend_from_slice(method.name.bytes())?;
    out.extend_from_slice(b"(")?;
    write_types(out, method.params.as_slice())?;
    out.extend_from_slice(b")>")
}

/// The text of a field.
pub fn write_field(out: &mut Vec<u8>, sig: &FieldSig) -> Result<(), AllocError>
    ensures { OnOk result (out.new.items ≡ out.old.items ++ field_text sig.now) }
{
    write_front(out, &sig.class, &sig.ty)?;
    out.extend_from_slice(sig.name.bytes())?;
    out.extend_from_slice(b">")
}

/// The text of the method with that number, where there is one.
pub fn write_method_at(out: &mut Vec<u8>, table: &ClassTable, m: MethodId) -> Result<(), AllocError>
    ensures { OnOk result (out.new.items ≡ out.old.items ++ method_text_at table.now m) }
{
    if m.0 >= table.methods() {
        return Ok(());
    }
    write_method(out, table.name(table.owner(m)), table.method(m))
}

/// The place of a statement in the body of the method that is written in front of it.
pub fn write_place(out: &mut Vec<u8>, place: u32) -> Result<(), AllocError>
    ensures { OnOk result (out.new.items ≡ out.old.items ++ place_text place) }
{
    out.extend_from_slice(b"#")?;
    write_number(out, place as u64)
}

/// A word, a number and the end of the line.
pub fn write_count(out: &mut Vec<u8>, word: &[u8], n: u64) -> Result<(), AllocError>
    ensures { OnOk result (out.new.items ≡ out.old.items ++ count_text word.now n) }
{
    out.extend_from_slice(word)?;
    write_number(out, n)?;
    out.extend_from_slice(b"\n")
}
