// The texts of statements.
// Bodies stand above, operands and labels below.
ghost use Rattle.std.specs.Prelude.{◌≡◌, ◌++◌, ◌<◌, All, OnOk, codes, decimal};
ghost use Rattle.std.specs.List.{flat_map};
ghost use Rattle.jimple_tree.specs.Labels.{IsNumbered, label_number};
ghost use Rattle.jimple_tree.specs.Operands.{imm_text, local_text, type_text};
ghost use Rattle.jimple_tree.specs.Statements.{
  case_head,
  element_text,
  field_text,
  case_line,
  cond_text,
  default_line,
  given_text,
  goto_text,
  length_text,
  op_text,
  place_text,
  rhs_text,
  stmt_text,
  switch_word,
};
ghost use Rattle.jimple_tree.specs.WellFormed.{ImmFits, LocalFits, PlaceFits, RhsFits, StmtFits, TargetFits};

use crate::labels::write_label;
use crate::names::write_name;
use crate::operand::{
    write_brackets, write_field_sig, write_imm, write_invoke, write_local, write_type,
};
use crate::tree::{BinOp, Body, Case, Cond, FieldSig, Given, Imm, JType, Place, Rhs, Stmt};
use clean_base::LocalId;
use itoa::Buffer;
use std::alloc::AllocError;

fn write_param(out: &mut Vec<u8>, number: u8) -> Result<(), AllocError>
    ensures { OnOk result (out.new.items ≡ out.old.items ++ codes "@parameter" ++ decimal number) }
{
    let mut buffer = Buffer::new();
    out.extend_from_slice(b"@parameter")?;
    out.extend_from_slice(buffer.format(number).as_bytes())
}

fn write_given(out: &mut Vec<u8>, given: &Given) -> Result<(), AllocError>
    ensures { OnOk result (out.new.items ≡ out.old.items ++ given_text given.now) }
{
    match given {
        Given::This(ty) => {
            out.extend_from_slice(b"@this: ")?;
            write_type(out, ty)
        }
        Given::Param(number, ty) => {
            write_param(out, *number)?;
            out.extend_from_slice(b": ")?;
            write_type(out, ty)
        }
        Given::Caught => out.extend_from_slice(b"@caughtexception"),
    }
}

/// Writes a field of what a local holds.
fn write_field(
    out: &mut Vec<u8>,
    body: &Body,
    base: LocalId,
    sig: &FieldSig,
) -> Result<(), AllocError>
    requires { LocalFits body.now base }
    ensures { OnOk result (out.new.items ≡ out.old.items ++ field_text body.now base sig.now) }
{
    write_local(out, body, base)?;
    out.extend_from_slice(b".")?;
    write_field_sig(out, sig)
}

/// Writes an element of the array that a local holds.
fn write_element(
    out: &mut Vec<u8>,
    body: &Body,
    base: LocalId,
    index: &Imm,
) -> Result<(), AllocError>
    requires base { LocalFits body.now base }
    requires index { ImmFits body.now index.now }
    ensures { OnOk result (out.new.items ≡ out.old.items ++ element_text body.now base index.now) }
{
    write_local(out, body, base)?;
    write_length(out, body, index)
}

fn write_place(out: &mut Vec<u8>, body: &Body, place: &Place) -> Result<(), AllocError>
    requires { PlaceFits body.now place.now }
    ensures { OnOk result (out.new.items ≡ out.old.items ++ place_text body.now place.now) }
{
    match place {
        Place::Local(local) => write_local(out, body, *local),
        Place::Field { base, sig } => write_field(out, body, *base, sig),
        Place::Static(sig) => write_field_sig(out, sig),
        Place::Element { base, index } => write_element(out, body, *base, index),
    }
}

fn write_cond(out: &mut Vec<u8>, cond: Cond) -> Result<(), AllocError>
    ensures { OnOk result (out.new.items ≡ out.old.items ++ cond_text cond) }
{
    match cond {
        Cond::Eq => out.extend_from_slice(b" == "),
        Cond::Ne => out.extend_from_slice(b" != "),
        Cond::Lt => out.extend_from_slice(b" < "),
        Cond::Le => out.extend_from_slice(b" <= "),
        Cond::Gt => out.extend_from_slice(b" > "),
        Cond::Ge => out.extend_from_slice(b" >= "),
    }
}

fn write_op(out: &mut Vec<u8>, op: BinOp) -> Result<(), AllocError>
    ensures { OnOk result (out.new.items ≡ out.old.items ++ op_text op) }
{
    match op {
        BinOp::Add => out.extend_from_slice(b" + "),
        BinOp::Sub => out.extend_from_slice(b" - "),
        BinOp::Mul => out.extend_from_slice(b" * "),
        BinOp::Div => out.extend_from_slice(b" / "),
        BinOp::Rem => out.extend_from_slice(b" % "),
        BinOp::And => out.extend_from_slice(b" & "),
        BinOp::Or => out.extend_from_slice(b" | "),
        BinOp::Xor => out.extend_from_slice(b" ^ "),
        BinOp::Shl => out.extend_from_slice(b" << "),
        BinOp::Shr => out.extend_from_slice(b" >> "),
        BinOp::Ushr => out.extend_from_slice(b" >>> "),
        BinOp::Cmp => out.extend_from_slice(b" cmp "),
        BinOp::Cmpg => out.extend_from_slice(b" cmpg "),
        BinOp::Cmpl => out.extend_from_slice(b" cmpl "),
    }
}

/// Writes an index or a length in its brackets.
fn write_length(out: &mut Vec<u8>, body: &Body, len: &Imm) -> Result<(), AllocError>
    requires { ImmFits body.now len.now }
    ensures { OnOk result (out.new.items ≡ out.old.items ++ length_text body.now len.now) }
{
    out.extend_from_slice(b"[")?;
    write_imm(out, body, len)?;
    out.extend_from_slice(b"]")
}

fn write_lengths(out: &mut Vec<u8>, body: &Body, lens: &[Imm]) -> Result<(), AllocError>
    requires { All (ImmFits body.now) lens.now }
    ensures { OnOk result (out.new.items ≡ out.old.items ++ flat_map (length_text body.now) lens.now) }
{
    for len in lens {
        write_length(out, body, len)?;
    }
    Ok(())
}

/// Writes a type in parentheses behind a word.
fn write_typed(out: &mut Vec<u8>, word: &[u8], ty: &JType) -> Result<(), AllocError>
    ensures { OnOk result (out.new.items ≡ out.old.items ++ word.now ++ codes "(" ++ type_text ty.now ++ codes ")") }
{
    out.extend_from_slice(word)?;
    out.extend_from_slice(b"(")?;
    write_type(out, ty)?;
    out.extend_from_slice(b")")
}

/// Writes an operand behind a word.
fn write_word(out: &mut Vec<u8>, word: &[u8], body: &Body, imm: &Imm) -> Result<(), AllocError>
    requires { ImmFits body.now imm.now }
    ensures { OnOk result (out.new.items ≡ out.old.items ++ word.now ++ imm_text body.now imm.now) }
{
    out.extend_from_slice(word)?;
    write_imm(out, body, imm)
}

fn write_rhs(out: &mut Vec<u8>, body: &Body, rhs: &Rhs) -> Result<(), AllocError>
    requires { RhsFits body.now rhs.now }
    ensures { OnOk result (out.new.items ≡ out.old.items ++ rhs_text body.now rhs.now) }
{
    match rhs {
        Rhs::Use(value) => write_imm(out, body, value),
        Rhs::Cast(ty, value) => {
            write_typed(out, b"", ty)?;
            write_word(out, b" ", body, value)
        }
        Rhs::Load { base, sig } => write_field(out, body, *base, sig),
        Rhs::StaticLoad(sig) => write_field_sig(out, sig),
        Rhs::Element { base, index } => write_element(out, body, *base, index),
        Rhs::New(class) => {
            out.extend_from_slice(b"new ")?;
            write_name(out, class.bytes())
        }
        Rhs::NewArray { ty, len } => {
            write_typed(out, b"newarray ", ty)?;
            write_length(out, body, len)
        }
        Rhs::NewMulti { ty, lens, bare } => {
            write_typed(out, b"newmultiarray ", ty)?;
            write_lengths(out, body, lens.as_slice())?;
            write_brackets(out, u64::from(*bare))
        }
        Rhs::InstanceOf(value, ty) => {
            write_imm(out, body, value)?;
            out.extend_from_slice(b" instanceof ")?;
            write_type(out, ty)
        }
        Rhs::Length(value) => write_word(out, b"lengthof ", body, value),
        Rhs::Neg(value) => write_word(out, b"neg ", body, value),
        Rhs::Binary { op, left, right } => {
            write_imm(out, body, left)?;
            write_op(out, *op)?;
            write_imm(out, body, right)
        }
        Rhs::Call(invoke) => write_invoke(out, body, invoke),
    }
}

/// Writes a jump to the label of a number.
#[tactic(auto, unfolding(crate::specs::Statements::goto_text))]
fn write_goto(out: &mut Vec<u8>, number: u64) -> Result<(), AllocError>
    ensures { OnOk result (out.new.items ≡ out.old.items ++ goto_text number) }
{
    out.extend_from_slice(b"goto ")?;
    write_label(out, number)?;
    out.extend_from_slice(b";")
}

fn write_if(
    out: &mut Vec<u8>,
    body: &Body,
    left: &Imm,
    cond: Cond,
    right: &Imm,
) -> Result<(), AllocError>
    requires left { ImmFits body.now left.now }
    requires right { ImmFits body.now right.now }
    ensures { OnOk result (out.new.items
        ≡ out.old.items ++ codes "if " ++ imm_text body.now left.now ++ cond_text cond ++ imm_text body.now right.now ++ codes " ") }
{
    write_word(out, b"if ", body, left)?;
    write_cond(out, cond)?;
    write_imm(out, body, right)?;
    out.extend_from_slice(b" ")
}

/// Writes what a case begins with.
#[tactic(auto, unfolding(crate::specs::Statements::case_head))]
fn write_case_head(out: &mut Vec<u8>, value: &[u8]) -> Result<(), AllocError>
    ensures { OnOk result (out.new.items ≡ out.old.items ++ case_head value.now) }
{
    out.extend_from_slice(b"            case ")?;
    out.extend_from_slice(value)?;
    out.extend_from_slice(b": ")
}

#[tactic(auto, unfolding(crate::specs::Statements::case_line))]
fn write_case(out: &mut Vec<u8>, body: &Body, labels: &[u64], case: &Case) -> Result<(), AllocError>
    requires target { TargetFits body.now case.now.target }
    requires numbered { IsNumbered body.now labels.now }
    ensures { OnOk result (out.new.items ≡ out.old.items ++ case_line body.now case.now) }
{
    write_case_head(out, case.value.bytes())?;
    write_goto(out, labels[case.target as usize])?;
    out.extend_from_slice(b"\n")
}

fn write_cases(
    out: &mut Vec<u8>,
    body: &Body,
    labels: &[u64],
    cases: &[Case],
) -> Result<(), AllocError>
    requires targets { All (λ c. TargetFits body.now c.target) cases.now }
    requires numbered { IsNumbered body.now labels.now }
    ensures { OnOk result (out.new.items ≡ out.old.items ++ flat_map (case_line body.now) cases.now) }
{
    for case in cases {
        write_case(out, body, labels, case)?;
    }
    Ok(())
}

#[tactic(auto, unfolding(crate::specs::Statements::default_line))]
fn write_default(out: &mut Vec<u8>, number: u64) -> Result<(), AllocError>
    ensures { OnOk result (out.new.items ≡ out.old.items ++ default_line number) }
{
    out.extend_from_slice(b"            default: ")?;
    write_goto(out, number)?;
    out.extend_from_slice(b"\n")
}

/// Writes what a switch begins with.
fn write_switch_head(
    out: &mut Vec<u8>,
    body: &Body,
    table: bool,
    key: &Imm,
) -> Result<(), AllocError>
    requires { ImmFits body.now key.now }
    ensures { OnOk result (out.new.items ≡ out.old.items ++ switch_word table ++ imm_text body.now key.now ++ codes ") {\n") }
{
    let word: &[u8] = if table {
        b"tableswitch("
    } else {
        b"lookupswitch("
    };
    write_word(out, word, body, key)?;
    out.extend_from_slice(b") {\n")
}

/// Writes the cases of a switch, its default and its end.
fn write_switch_rest(
    out: &mut Vec<u8>,
    body: &Body,
    labels: &[u64],
    cases: &[Case],
    default: u32,
) -> Result<(), AllocError>
    requires targets { All (λ c. TargetFits body.now c.target) cases.now }
    requires default { TargetFits body.now default }
    requires numbered { IsNumbered body.now labels.now }
    ensures { OnOk result (out.new.items
        ≡ out.old.items ++ flat_map (case_line body.now) cases.now ++ default_line (label_number body.now default)
        ++ codes "        };") }
{
    write_cases(out, body, labels, cases)?;
    write_default(out, labels[default as usize])?;
    out.extend_from_slice(b"        };")
}

/// Writes a statement of a word and an operand.
fn write_word_stmt(out: &mut Vec<u8>, word: &[u8], body: &Body, imm: &Imm) -> Result<(), AllocError>
    requires { ImmFits body.now imm.now }
    ensures { OnOk result (out.new.items ≡ out.old.items ++ word.now ++ imm_text body.now imm.now ++ codes ";") }
{
    write_word(out, word, body, imm)?;
    out.extend_from_slice(b";")
}

fn write_identity(
    out: &mut Vec<u8>,
    body: &Body,
    local: LocalId,
    what: &Given,
) -> Result<(), AllocError>
    requires { LocalFits body.now local }
    ensures { OnOk result (out.new.items
        ≡ out.old.items ++ local_text body.now local ++ codes " := " ++ given_text what.now ++ codes ";") }
{
    write_local(out, body, local)?;
    out.extend_from_slice(b" := ")?;
    write_given(out, what)?;
    out.extend_from_slice(b";")
}

fn write_assign(out: &mut Vec<u8>, body: &Body, place: &Place, rhs: &Rhs) -> Result<(), AllocError>
    requires place { PlaceFits body.now place.now }
    requires rhs { RhsFits body.now rhs.now }
    ensures { OnOk result (out.new.items
        ≡ out.old.items ++ place_text body.now place.now ++ codes " = " ++ rhs_text body.now rhs.now ++ codes ";") }
{
    write_place(out, body, place)?;
    out.extend_from_slice(b" = ")?;
    write_rhs(out, body, rhs)?;
    out.extend_from_slice(b";")
}

/// Writes a statement without its indent and the end of its line.
pub(crate) fn write_stmt(
    out: &mut Vec<u8>,
    body: &Body,
    labels: &[u64],
    stmt: &Stmt,
) -> Result<(), AllocError>
    requires fits { StmtFits body.now stmt.now }
    requires numbered { IsNumbered body.now labels.now }
    ensures { OnOk result (out.new.items ≡ out.old.items ++ stmt_text body.now stmt.now) }
{
    match stmt {
        Stmt::Identity { local, what } => write_identity(out, body, *local, what),
        Stmt::Assign { place, rhs } => write_assign(out, body, place, rhs),
        Stmt::Call(invoke) => {
            write_invoke(out, body, invoke)?;
            out.extend_from_slice(b";")
        }
        Stmt::If {
            left,
            cond,
            right,
            target,
        } => {
            write_if(out, body, left, *cond, right)?;
            write_goto(out, labels[*target as usize])
        }
        Stmt::Goto(target) => write_goto(out, labels[*target as usize]),
        Stmt::Switch {
            table,
            key,
            cases,
            default,
        } => {
            write_switch_head(out, body, *table, key)?;
            write_switch_rest(out, body, labels, cases.as_slice(), *default)
        }
        Stmt::Return(None) => out.extend_from_slice(b"return;"),
        Stmt::Return(Some(value)) => write_word_stmt(out, b"return ", body, value),
        Stmt::Throw(value) => write_word_stmt(out, b"throw ", body, value),
        Stmt::Nop => out.extend_from_slice(b"nop;"),
        Stmt::Enter(value) => write_word_stmt(out, b"entermonitor ", body, value),
        Stmt::Exit(value) => write_word_stmt(out, b"exitmonitor ", body, value),
    }
}
