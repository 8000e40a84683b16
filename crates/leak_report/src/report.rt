// The report: a line for each leak, and the numbers of path edges and contexts. How methods and numbers are printed stands
// below.
ghost use Rattle.std.specs.Prelude.{◌≡◌, ◌++◌, All, Contains, OnOk, IfOk, flat_map, map, ℕ, Bool, List};
ghost use Rattle.clean_base.specs.declared.ids.FieldId.{FieldId};
ghost use Rattle.flow_rules.specs.Code.{method_of};
ghost use Rattle.flow_rules.specs.Own.{IsField, IsLocalOf, IsStmt, OwnLeak};
ghost use Rattle.ifds_model.specs.Runs.{IsEdge, IsContext, IsLeak, Lists, HasCount};
ghost use Rattle.program_code.specs.App.{IsMethod};
ghost use Rattle.leak_report.specs.Report.{field_text_at, line_of, line_text, local_text, path_text, report_text, step_text, stmt_text, OwnLine, Shows, Reports};

use crate::printed::{write_count, write_field, write_method_at, write_place};
use clean_base::{FieldId, Fields, LocalId, MethodId, Seq, StmtId};
use ifds_model::{Leak, Problem};
use program_code::Program;
use std::alloc::{AllocError, Global};

/// A report's bytes, and whether it has a leak line.
#[derive(Debug, Drop)]
pub struct Report {
    pub text: Seq<u8>,
    pub leaky: bool,
}

/// What a line shows of a leak. Lines are ordered by their sinks, their sources and the bytes of their paths.
#[derive(Debug, Drop, PartialEq, Eq, PartialOrd, Ord)]
pub struct Line {
    sink: StmtId,
    source: StmtId,
    path: Seq<u8>,
}

// The text of a statement.
fn write_stmt(out: &mut Vec<u8>, program: &Program, s: StmtId) -> Result<(), AllocError>
    requires { IsStmt program.now.code s }
    ensures { OnOk result (out.new.items ≡ out.old.items ++ stmt_text program.now s) }
{
    write_method_at(out, program.table(), program.method_of(s))?;
    write_place(out, program.place_of(s))
}

// The text of a field of a path, without what stands before it.
fn write_field_at(out: &mut Vec<u8>, program: &Program, field: FieldId) -> Result<(), AllocError>
    requires { IsField program.now.code field }
    ensures { OnOk result (out.new.items ≡ out.old.items ++ field_text_at program.now.fields field.0) }
{
    match program.field_sig(field) {
        Some(sig) => write_field(out, sig),
        None if field.0 == 0 => out.extend_from_slice(b"[]"),
        None => out.extend_from_slice(b"inside"),
    }
}

fn write_step(out: &mut Vec<u8>, program: &Program, field: FieldId) -> Result<(), AllocError>
    requires { IsField program.now.code field }
    ensures { OnOk result (out.new.items ≡ out.old.items ++ step_text program.now field) }
{
    out.extend_from_slice(b".")?;
    write_field_at(out, program, field)
}

fn write_steps(out: &mut Vec<u8>, program: &Program, fields: Fields) -> Result<(), AllocError>
    requires { (f : FieldId) → Contains fields f → IsField program.now.code f }
    ensures { OnOk result (out.new.items ≡ out.old.items ++ flat_map (step_text program.now) fields) }
{
    for i in 0..fields.len() {
        write_step(out, program, fields.at(i))?;
    }
    Ok(())
}

fn write_local(
    out: &mut Vec<u8>,
    program: &Program,
    m: MethodId,
    x: LocalId,
) -> Result<(), AllocError>
    requires method { IsMethod program.now.code m }
    requires local { IsLocalOf program.now.code m x }
    ensures { OnOk result (out.new.items ≡ out.old.items ++ local_text program.now m x) }
{
    out.extend_from_slice(program.local_name(m, x).bytes())
}

// The text of a leak's path.
fn path_of(alloc: Global, program: &Program, leak: Leak) -> Result<Seq<u8>, AllocError>
    requires { OwnLeak program.now.code leak }
    ensures { IfOk result (λ path. path ≡ path_text program.now (method_of program.now.code leak.sink) leak.base leak.fields) }
{
    let mut path = Vec::new(alloc);
    write_local(&mut path, program, program.method_of(leak.sink), leak.base)?;
    write_steps(&mut path, program, leak.fields)?;
    Ok(Seq::from_vec(path))
}

// What a line shows of a leak.
fn line_of(alloc: Global, program: &Program, leak: Leak) -> Result<Line, AllocError>
    requires { OwnLeak program.now.code leak }
    ensures { IfOk result (λ line. line ≡ line_of program.now leak) }
{
    Ok(Line {
        sink: leak.sink,
        source: leak.source,
        path: path_of(alloc, program, leak)?,
    })
}

// The lines of the leaks, in the leaks' order.
fn lines_of(alloc: Global, program: &Program, leaks: &[Leak]) -> Result<Vec<Line>, AllocError>
    requires { All (OwnLeak program.now.code) leaks.now }
    ensures { IfOk result (λ lines. lines.items ≡ map (line_of program.now) leaks.now) }
{
    let mut lines = Vec::new(alloc);
    for leak in leaks {
        lines.push(line_of(alloc, program, *leak)?)?;
    }
    Ok(lines)
}

// The lines of the leaks, in their own order.
fn sorted_lines(alloc: Global, program: &Program, leaks: &[Leak]) -> Result<Vec<Line>, AllocError>
    requires { All (OwnLeak program.now.code) leaks.now }
    ensures shows { IfOk result (λ lines. Shows program.now leaks.now lines.items) }
    ensures own { IfOk result (λ lines. All (OwnLine program.now.code) lines.items) }
{
    let mut lines = lines_of(alloc, program, leaks)?;
    lines.sort()?;
    Ok(lines)
}

fn write_line(out: &mut Vec<u8>, program: &Program, line: &Line) -> Result<(), AllocError>
    requires { OwnLine program.now.code line.now }
    ensures { OnOk result (out.new.items ≡ out.old.items ++ line_text program.now line.now) }
{
    out.extend_from_slice(b"leak ")?;
    write_stmt(out, program, line.sink)?;
    out.extend_from_slice(b" from ")?;
    write_stmt(out, program, line.source)?;
    out.extend_from_slice(b" at ")?;
    out.extend_from_slice(line.path.as_slice())?;
    out.extend_from_slice(b"\n")
}

fn write_lines(out: &mut Vec<u8>, program: &Program, lines: &[Line]) -> Result<(), AllocError>
    requires { All (OwnLine program.now.code) lines.now }
    ensures { OnOk result (out.new.items ≡ out.old.items ++ flat_map (line_text program.now) lines.now) }
{
    for line in lines {
        write_line(out, program, line)?;
    }
    Ok(())
}

// The text of a report with these lines.
fn report_text(
    alloc: Global,
    program: &Program,
    lines: &[Line],
    edges: u64,
    contexts: u64,
) -> Result<Vec<u8>, AllocError>
    requires { All (OwnLine program.now.code) lines.now }
    ensures { IfOk result (λ text. text.items ≡ report_text program.now lines.now edges contexts) }
{
    let mut out = Vec::new(alloc);
    write_lines(&mut out, program, lines)?;
    write_count(&mut out, b"edges ", edges)?;
    write_count(&mut out, b"contexts ", contexts)?;
    Ok(out)
}

// The report of these leaks, and the numbers of path edges and contexts.
fn made<P: Problem<Mark = Leak>>(
    alloc: Global,
    problem: &P,
    program: &Program,
    leaks: &[Leak],
    edges: u64,
    contexts: u64,
) -> Result<Report, AllocError>
    requires leaks { Lists (IsLeak (P.machine problem.now)) leaks.now }
    requires own { All (OwnLeak program.now.code) leaks.now }
    requires edges { HasCount (IsEdge (P.machine problem.now)) edges }
    requires contexts { HasCount (IsContext (P.machine problem.now)) contexts }
    ensures { IfOk result (λ r. Reports (P.machine problem.now) program.now edges r.text r.leaky) }
{
    let lines = sorted_lines(alloc, program, leaks)?;
    let text = report_text(alloc, program, lines.as_slice(), edges, contexts)?;
    Ok(Report {
        text: Seq::from_vec(text),
        leaky: lines.len() > 0,
    })
}

/// The report of what a solver found in a program: its leaks, each of which names only the program's own statements, locals
/// and fields, and the numbers of path edges and contexts.
pub fn write_report<P: Problem<Mark = Leak>>(
    alloc: Global,
    problem: &P,
    program: &Program,
    leaks: &[Leak],
    edges: u64,
    contexts: u64,
) -> Result<Report, AllocError>
    requires leaks { Lists (IsLeak (P.machine problem.now)) leaks.now }
    requires own { All (OwnLeak program.now.code) leaks.now }
    requires edges { HasCount (IsEdge (P.machine problem.now)) edges }
    requires contexts { HasCount (IsContext (P.machine problem.now)) contexts }
    ensures is { IfOk result (λ r. Reports (P.machine problem.now) program.now edges r.text r.leaky) }
    ensures only { IfOk result (λ r. (n : ℕ) (text : List ℕ) (leaky : Bool) → Reports (P.machine problem.now) program.now n text leaky → (text ≡ r.text) × (leaky ≡ r.leaky)) }
{
    let report = made(alloc, problem, program, leaks, edges, contexts)?;
    Ok(report)
}
