// The canonical text of a class (docs/FORMATS.md, "Tree and canonical text"): headings, members, and the lines of bodies.
// Statements, operands and names stand below; the crate's callers above.
ghost use Rattle.std.specs.Prelude.{◌≡◌, ◌++◌, ◌+◌, ◌<◌, All, OnOk, codes, nat_lt, [], if◌then◌else◌};
ghost use Rattle.std.specs.List.{flat_map};
ghost use Rattle.jimple_tree.specs.Canonical.{
  canonical,
  class_heading,
  class_word,
  field_line,
  member_head,
  method_end,
  method_heading,
  method_text,
  modifiers_text,
  names_clause,
};
ghost use Rattle.jimple_tree.specs.Labels.{IsNumbered, label_text};
ghost use Rattle.jimple_tree.specs.Names.{name_text};
ghost use Rattle.jimple_tree.specs.Operands.{type_text};
ghost use Rattle.jimple_tree.specs.Statements.{body_text, catch_head, catch_line, lines_from, local_line, stmt_line};
ghost use Rattle.jimple_tree.specs.WellFormed.{BodyFits, CatchFits, IsWellFormed, MethodFits, OptionalBodyFits, StmtFits};

use crate::labels::{number_labels, write_label};
use crate::names::write_name;
use crate::operand::{write_type, write_types};
use crate::statement::write_stmt;
use crate::tree::{Body, Catch, Class, Field, JType, Local, Method, Stmt};
use clean_base::Name;
use std::alloc::AllocError;

fn write_modifiers(out: &mut Vec<u8>, modifiers: &[Name]) -> Result<(), AllocError>
    ensures { OnOk result (out.new.items ≡ out.old.items ++ modifiers_text modifiers.now) }
{
    for modifier in modifiers {
        out.extend_from_slice(modifier.bytes())?;
        out.extend_from_slice(b" ")?;
    }
    Ok(())
}

/// Writes each name behind a comma and a space.
fn write_more_names(out: &mut Vec<u8>, names: &[Name]) -> Result<(), AllocError>
    ensures { OnOk result (out.new.items ≡ out.old.items ++ flat_map (λ n. codes ", " ++ name_text n) names.now) }
{
    for name in names {
        out.extend_from_slice(b", ")?;
        write_name(out, name.bytes())?;
    }
    Ok(())
}

/// Writes a word of a heading and its names, where there are any.
fn write_names_clause(out: &mut Vec<u8>, word: &[u8], names: &[Name]) -> Result<(), AllocError>
    ensures { OnOk result (out.new.items ≡ out.old.items ++ names_clause word.now names.now) }
{
    match names {
        [] => Ok(()),
        [first, rest @ ..] => {
            out.extend_from_slice(word)?;
            write_name(out, first.bytes())?;
            write_more_names(out, rest)
        }
    }
}

/// Writes a type, a space and a name.
fn write_typed_name(out: &mut Vec<u8>, ty: &JType, name: &Name) -> Result<(), AllocError>
    ensures { OnOk result (out.new.items ≡ out.old.items ++ type_text ty.now ++ codes " " ++ name_text name.now) }
{
    write_type(out, ty)?;
    out.extend_from_slice(b" ")?;
    write_name(out, name.bytes())
}

#[tactic(auto, unfolding(crate::specs::Statements::local_line))]
fn write_local_line(out: &mut Vec<u8>, local: &Local) -> Result<(), AllocError>
    ensures { OnOk result (out.new.items ≡ out.old.items ++ local_line local.now) }
{
    out.extend_from_slice(b"        ")?;
    write_typed_name(out, &local.ty, &local.name)?;
    out.extend_from_slice(b";\n")
}

fn write_locals(out: &mut Vec<u8>, locals: &[Local]) -> Result<(), AllocError>
    ensures { OnOk result (out.new.items ≡ out.old.items ++ flat_map local_line locals.now) }
{
    for local in locals {
        write_local_line(out, local)?;
    }
    Ok(())
}

/// Writes the line of a label, where its number is above that of the place before.
fn write_label_line(out: &mut Vec<u8>, before: u64, number: u64) -> Result<(), AllocError>
    ensures { OnOk result (out.new.items
        ≡ out.old.items ++ (if nat_lt before number then codes "    " ++ label_text number ++ codes ":\n" else [])) }
{
    if before < number {
        out.extend_from_slice(b"    ")?;
        write_label(out, number)?;
        out.extend_from_slice(b":\n")
    } else {
        Ok(())
    }
}

#[tactic(auto, unfolding(crate::specs::Statements::stmt_line))]
fn write_stmt_line(
    out: &mut Vec<u8>,
    body: &Body,
    labels: &[u64],
    stmt: &Stmt,
) -> Result<(), AllocError>
    requires fits { StmtFits body.now stmt.now }
    requires numbered { IsNumbered body.now labels.now }
    ensures { OnOk result (out.new.items ≡ out.old.items ++ stmt_line body.now stmt.now) }
{
    out.extend_from_slice(b"        ")?;
    write_stmt(out, body, labels, stmt)?;
    out.extend_from_slice(b"\n")
}

/// Writes the statements with the labels before them, and the label of the end.
fn write_lines(out: &mut Vec<u8>, body: &Body, labels: &[u64]) -> Result<(), AllocError>
    requires fits { All (StmtFits body.now) body.now.stmts }
    requires numbered { IsNumbered body.now labels.now }
    ensures { OnOk result (out.new.items ≡ out.old.items ++ lines_from body.now 0 body.now.stmts) }
{
    let stmts = body.stmts.as_slice();
    let mut before = 0;
    for (place, stmt) in stmts.iter().enumerate() {
        write_label_line(out, before, labels[place])?;
        write_stmt_line(out, body, labels, stmt)?;
        before = labels[place];
    }
    write_label_line(out, before, labels[stmts.len()])
}

/// Writes a word of a catch clause and a label.
fn write_bound(out: &mut Vec<u8>, word: &[u8], number: u64) -> Result<(), AllocError>
    ensures { OnOk result (out.new.items ≡ out.old.items ++ word.now ++ label_text number) }
{
    out.extend_from_slice(word)?;
    write_label(out, number)
}

#[tactic(auto, unfolding(crate::specs::Statements::catch_head))]
fn write_catch_head(out: &mut Vec<u8>, class: &[u8]) -> Result<(), AllocError>
    ensures { OnOk result (out.new.items ≡ out.old.items ++ catch_head class.now) }
{
    out.extend_from_slice(b"        catch ")?;
    write_name(out, class)
}

#[tactic(auto, unfolding(crate::specs::Statements::catch_line))]
fn write_catch(
    out: &mut Vec<u8>,
    body: &Body,
    labels: &[u64],
    catch: &Catch,
) -> Result<(), AllocError>
    requires fits { CatchFits body.now catch.now }
    requires numbered { IsNumbered body.now labels.now }
    ensures { OnOk result (out.new.items ≡ out.old.items ++ catch_line body.now catch.now) }
{
    write_catch_head(out, catch.class.bytes())?;
    write_bound(out, b" from ", labels[catch.from as usize])?;
    write_bound(out, b" to ", labels[catch.to as usize])?;
    write_bound(out, b" with ", labels[catch.with as usize])?;
    out.extend_from_slice(b";\n")
}

fn write_catches(
    out: &mut Vec<u8>,
    body: &Body,
    labels: &[u64],
    catches: &[Catch],
) -> Result<(), AllocError>
    requires fits { All (CatchFits body.now) catches.now }
    requires numbered { IsNumbered body.now labels.now }
    ensures { OnOk result (out.new.items ≡ out.old.items ++ flat_map (catch_line body.now) catches.now) }
{
    for catch in catches {
        write_catch(out, body, labels, catch)?;
    }
    Ok(())
}

fn write_body(out: &mut Vec<u8>, body: &Body) -> Result<(), AllocError>
    requires { BodyFits body.now }
    ensures { OnOk result (out.new.items ≡ out.old.items ++ body_text body.now) }
{
    let alloc = *out.allocator();
    let numbers = number_labels(alloc, body)?;
    let labels = numbers.as_slice();
    write_locals(out, body.locals.as_slice())?;
    write_lines(out, body, labels)?;
    write_catches(out, body, labels, body.catches.as_slice())
}

/// Writes what stands behind a method's heading.
fn write_method_end(out: &mut Vec<u8>, body: &Option<Body>) -> Result<(), AllocError>
    requires { OptionalBodyFits body.now }
    ensures { OnOk result (out.new.items ≡ out.old.items ++ method_end body.now) }
{
    match body {
        None => out.extend_from_slice(b";\n"),
        Some(body) => {
            out.extend_from_slice(b"\n    {\n")?;
            write_body(out, body)?;
            out.extend_from_slice(b"    }\n")
        }
    }
}

/// Writes what a field and a method begin with.
#[tactic(auto, unfolding(crate::specs::Canonical::member_head))]
fn write_member_head(
    out: &mut Vec<u8>,
    modifiers: &[Name],
    ty: &JType,
    name: &Name,
) -> Result<(), AllocError>
    ensures { OnOk result (out.new.items ≡ out.old.items ++ member_head modifiers.now ty.now name.now) }
{
    out.extend_from_slice(b"    ")?;
    write_modifiers(out, modifiers)?;
    write_typed_name(out, ty, name)
}

fn write_method_heading(out: &mut Vec<u8>, method: &Method) -> Result<(), AllocError>
    ensures { OnOk result (out.new.items ≡ out.old.items ++ method_heading method.now) }
{
    write_member_head(
        out,
        method.modifiers.as_slice(),
        &method.result,
        &method.name,
    )?;
    out.extend_from_slice(b"(")?;
    write_types(out, method.params.as_slice())?;
    out.extend_from_slice(b")")?;
    write_names_clause(out, b" throws ", method.throws.as_slice())
}

fn write_method(out: &mut Vec<u8>, method: &Method) -> Result<(), AllocError>
    requires { MethodFits method.now }
    ensures { OnOk result (out.new.items ≡ out.old.items ++ method_text method.now) }
{
    write_method_heading(out, method)?;
    write_method_end(out, &method.body)
}

fn write_methods(out: &mut Vec<u8>, methods: &[Method]) -> Result<(), AllocError>
    requires { All MethodFits methods.now }
    ensures { OnOk result (out.new.items ≡ out.old.items ++ flat_map method_text methods.now) }
{
    for method in methods {
        write_method(out, method)?;
    }
    Ok(())
}

fn write_field(out: &mut Vec<u8>, field: &Field) -> Result<(), AllocError>
    ensures { OnOk result (out.new.items ≡ out.old.items ++ field_line field.now) }
{
    write_member_head(out, field.modifiers.as_slice(), &field.ty, &field.name)?;
    out.extend_from_slice(b";\n")
}

fn write_fields(out: &mut Vec<u8>, fields: &[Field]) -> Result<(), AllocError>
    ensures { OnOk result (out.new.items ≡ out.old.items ++ flat_map field_line fields.now) }
{
    for field in fields {
        write_field(out, field)?;
    }
    Ok(())
}

fn write_class_word(out: &mut Vec<u8>, is_interface: bool) -> Result<(), AllocError>
    ensures { OnOk result (out.new.items ≡ out.old.items ++ class_word is_interface) }
{
    if is_interface {
        out.extend_from_slice(b"interface ")
    } else {
        out.extend_from_slice(b"class ")
    }
}

#[tactic(auto, unfolding(crate::specs::Canonical::class_heading))]
fn write_heading(out: &mut Vec<u8>, class: &Class) -> Result<(), AllocError>
    ensures { OnOk result (out.new.items ≡ out.old.items ++ class_heading class.now) }
{
    write_modifiers(out, class.modifiers.as_slice())?;
    write_class_word(out, class.is_interface)?;
    write_name(out, class.name.bytes())?;
    write_names_clause(out, b" extends ", class.extends.as_slice())?;
    write_names_clause(out, b" implements ", class.implements.as_slice())
}

/// Appends the canonical text of a class, and nothing else. The work is linear in the class.
pub fn write_class(out: &mut Vec<u8>, class: &Class) -> Result<(), AllocError>
    requires { IsWellFormed class.now }
    ensures { OnOk result (out.new.items ≡ out.old.items ++ canonical class.now) }
{
    write_heading(out, class)?;
    out.extend_from_slice(b"\n{\n")?;
    write_fields(out, class.fields.as_slice())?;
    write_methods(out, class.methods.as_slice())?;
    out.extend_from_slice(b"}\n")
}
