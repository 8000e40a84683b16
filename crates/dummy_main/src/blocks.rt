// The block of each kind of component. Lines, calls and small parts stand below; the generated class above.
ghost use Rattle.std.specs.Prelude.{◌≡◌, ◌<◌, ◌^◌, ◌+◌, ◌++◌, OnOk, IfOk, [], map, length};
ghost use Rattle.dummy_main.specs.Layout.{block, chooses, stmt_of, lines, size};

use crate::callback::Callback;
use crate::invoke::call_of;
use crate::line::Line;
use crate::parts::literal_of;
use crate::{Component, ComponentKind};
use clean_base::{LocalId, Name};
use jimple_tree::{Cond, Imm, InvokeKind, Place, Rhs, Stmt};
use std::alloc::{AllocError, Global};

/// `if i0 == 0 goto` the target.
pub(crate) fn choice_of(alloc: Global, target: u32) -> Result<Stmt, AllocError>
    ensures { IfOk result (λ made. made ≡ chooses target) }
{
    Ok(Stmt::If {
        left: Imm::Local(LocalId(0)),
        cond: Cond::Eq,
        right: literal_of(alloc, "0")?,
        target,
    })
}

fn made(alloc: Global, number: u16, class: &Name) -> Result<Stmt, AllocError>
    requires { number + 1 < 2 ^ 16 }
    ensures { IfOk result (λ made. made ≡ stmt_of number class.now 0 Line.Makes) }
{
    Ok(Stmt::Assign {
        place: Place::Local(LocalId(number + 1)),
        rhs: Rhs::New(class.copy(alloc)?),
    })
}

fn statement(
    alloc: Global,
    number: u16,
    class: &Name,
    start: u32,
    line: Line,
) -> Result<Stmt, AllocError>
    requires numbered { number + 1 < 2 ^ 16 }
    requires room { start < 2 ^ 31 }
    ensures { IfOk result (λ made. made ≡ stmt_of number class.now start line) }
{
    match line {
        Line::Makes => made(alloc, number, class),
        Line::Inits => {
            let init = call_of(alloc, InvokeKind::Special, number, class, Callback::Init)?;
            Ok(Stmt::Call(init))
        }
        Line::Calls(callback) => {
            let call = call_of(alloc, InvokeKind::Virtual, number, class, callback)?;
            Ok(Stmt::Call(call))
        }
        Line::Chooses(target) => choice_of(alloc, start + target as u32),
        Line::Jumps(target) => Ok(Stmt::Goto(start + target as u32)),
        Line::Leaves => Ok(Stmt::Goto(1)),
    }
}

fn push_lines(
    code: &mut Vec<Stmt>,
    alloc: Global,
    number: u16,
    class: &Name,
    start: u32,
    lines: &[Line],
) -> Result<(), AllocError>
    requires numbered { number + 1 < 2 ^ 16 }
    requires room { start < 2 ^ 31 }
    ensures { OnOk result (code.new.items ≡ code.old.items ++ map (stmt_of number class.now start) lines.now) }
{
    for line in lines {
        code.push(statement(alloc, number, class, start, *line)?)?;
    }
    Ok(())
}

// The lines of a kind's block.
fn lines_of(kind: ComponentKind) -> &'static [Line]
    ensures { result.now ≡ lines kind }
{
    match kind {
        ComponentKind::Activity => &[
            Line::Makes,
            Line::Inits,
            Line::Calls(Callback::ActivityCreate),
            Line::Calls(Callback::Start),
            Line::Calls(Callback::Resume),
            Line::Calls(Callback::Pause),
            Line::Chooses(4),
            Line::Calls(Callback::Stop),
            Line::Chooses(11),
            Line::Calls(Callback::Restart),
            Line::Jumps(3),
            Line::Calls(Callback::ActivityDestroy),
            Line::Leaves,
        ],
        ComponentKind::Service => &[
            Line::Makes,
            Line::Inits,
            Line::Calls(Callback::ServiceCreate),
            Line::Chooses(8),
            Line::Chooses(10),
            Line::Chooses(12),
            Line::Chooses(14),
            Line::Jumps(16),
            Line::Calls(Callback::StartCommand),
            Line::Jumps(3),
            Line::Calls(Callback::Bind),
            Line::Jumps(3),
            Line::Calls(Callback::Unbind),
            Line::Jumps(3),
            Line::Calls(Callback::Rebind),
            Line::Jumps(3),
            Line::Calls(Callback::ServiceDestroy),
            Line::Leaves,
        ],
        ComponentKind::Receiver => &[
            Line::Makes,
            Line::Inits,
            Line::Calls(Callback::Receive),
            Line::Leaves,
        ],
        ComponentKind::Provider => &[
            Line::Makes,
            Line::Inits,
            Line::Calls(Callback::ProviderCreate),
            Line::Chooses(9),
            Line::Chooses(11),
            Line::Chooses(13),
            Line::Chooses(15),
            Line::Chooses(17),
            Line::Jumps(19),
            Line::Calls(Callback::Query),
            Line::Jumps(3),
            Line::Calls(Callback::Insert),
            Line::Jumps(3),
            Line::Calls(Callback::Update),
            Line::Jumps(3),
            Line::Calls(Callback::Delete),
            Line::Jumps(3),
            Line::Calls(Callback::GetType),
            Line::Jumps(3),
            Line::Leaves,
        ],
    }
}

/// How many statements the block has.
pub(crate) fn size_of(kind: ComponentKind) -> u32
    ensures { result ≡ size kind }
{
    lines_of(kind).len() as u32
}

/// Adds the block of a component.
pub(crate) fn push_block(
    code: &mut Vec<Stmt>,
    alloc: Global,
    number: u16,
    component: &Component,
) -> Result<(), AllocError>
    requires numbered { number + 1 < 2 ^ 16 }
    requires room { length code.old.items < 2 ^ 31 }
    ensures { OnOk result (code.new.items ≡ code.old.items ++ block number (length code.old.items) component.now) }
{
    let start = code.len() as u32;
    let lines = lines_of(component.kind);
    push_lines(code, alloc, number, &component.name, start, lines)
}
