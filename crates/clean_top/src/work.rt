// From the texts of a command's files to its output, stage by stage.
ghost use Rattle.std.specs.Prelude.{◌≡◌, ◌<◌, ◌^◌, All, IfOk, Ok, Err, length};
ghost use Rattle.class_table.specs.Methods.{all_methods};
ghost use Rattle.clean_stage.specs.Stage.{Comes};
ghost use Rattle.clean_top.specs.Meaning.{assembled, of_commit, called, checked, generated, graphed, reported, rooted, serially, work};
ghost use Rattle.clean_top.specs.declared.read.Text.{Text};
ghost use Rattle.clean_top.specs.Words.{IsTuned, IsTunedTask, list_place, lists_of};

use crate::count::count;
use crate::graph::draw;
use crate::input::{Input, read_component_list, read_every_class, read_input, table_of};
use crate::output::Output;
use crate::print::print;
use crate::read::{Texts, text_at};
use crate::task::{Start, Task};
use app_program::{assemble, root_of};
use call_graph::CallGraph;
use clean_base::MethodId;
use clean_stage::{Halt, Refusal};
use command_line::Tuning;
use core_driver::finish;
use dummy_main::make;
use leak_report::{Report, write_report};
use program_code::Program;
use solver_core::{CommitStop, State};
use std::alloc::Global;
use taint_problem::TaintProblem;

fn of_commit(stop: CommitStop) -> Halt
    ensures { result ≡ of_commit stop }
{
    match stop {
        CommitStop::EdgeLimit { found } => Halt::Refused(Refusal::EdgeLimit { found }),
        CommitStop::OutOfMemory => Halt::OutOfMemory,
    }
}

// The program of an input.
fn program_of(alloc: Global, input: Input) -> Result<Program, Halt>
    ensures { Comes (assembled input) result }
{
    Ok(assemble(alloc, input.table, &input.lists, &input.entry)?)
}

// Solves a program.
fn report_of(alloc: Global, program: &Program, tuning: Tuning) -> Result<Output, Halt>
    requires { IsTuned tuning }
    ensures { Comes (reported tuning program.now) result }
{
    let problem = TaintProblem::new(program, tuning.k);
    let state = State::open(alloc, &problem, tuning.period, tuning.max_edges, 1)?;
    let answer = match finish(alloc, state) {
        Ok(answer) => answer,
        Err(stop) => return Err(of_commit(stop)),
    };
    let leaks = answer.marks.as_slice();
    let Report { text, leaky } = write_report(
        alloc,
        &problem,
        program,
        leaks,
        answer.edges,
        answer.contexts,
    )?;
    Ok(Output { text, leaky })
}

// The report of a program.
fn serial(alloc: Global, start: &Start, tuning: Tuning, texts: &Texts) -> Result<Output, Halt>
    requires short { All (λ (t : Text). length t.bytes < 2 ^ 32) texts.now.classes }
    requires lists { list_place start.now < length texts.now.lists }
    requires tuned { IsTuned tuning }
    ensures { Comes (serially start.now tuning texts.now) result }
{
    let input = read_input(alloc, start, texts)?;
    let program = program_of(alloc, input)?;
    report_of(alloc, &program, tuning)
}

// The method where the classes of an input are entered.
fn entered(alloc: Global, input: &Input) -> Result<MethodId, Halt>
    ensures comes { Comes (rooted input.now) result }
    ensures within { IfOk result (λ m. m.0 < length (all_methods input.now.table)) }
{
    Ok(root_of(alloc, &input.table, &input.entry)?)
}

// The graph of the open calls from the method on.
fn calls_from(alloc: Global, input: &Input, root: MethodId) -> Result<CallGraph, Halt>
    requires { root.0 < length (all_methods input.now.table) }
    ensures { Comes (called input.now root) result }
{
    Ok(call_graph::graph(alloc, &input.table, &input.lists, root)?)
}

// The graph of a program.
fn graph(alloc: Global, start: &Start, texts: &Texts) -> Result<Output, Halt>
    requires short { All (λ (t : Text). length t.bytes < 2 ^ 32) texts.now.classes }
    requires lists { list_place start.now < length texts.now.lists }
    ensures { Comes (graphed start.now texts.now) result }
{
    let input = read_input(alloc, start, texts)?;
    let root = entered(alloc, &input)?;
    let calls = calls_from(alloc, &input, root)?;
    Ok(draw(alloc, &input.table, &calls)?)
}

// The numbers of the classes.
fn check(alloc: Global, texts: &Texts) -> Result<Output, Halt>
    requires { All (λ (t : Text). length t.bytes < 2 ^ 32) texts.now.classes }
    ensures { Comes (checked texts.now) result }
{
    let classes = read_every_class(alloc, texts.classes.as_slice())?;
    let table = table_of(alloc, classes)?;
    Ok(count(alloc, &table)?)
}

// The class that is generated for the components of the first list.
fn main(alloc: Global, texts: &Texts) -> Result<Output, Halt>
    requires { 0 < length texts.now.lists }
    ensures { Comes (generated texts.now) result }
{
    let components = read_component_list(alloc, text_at(texts.lists.as_slice(), 0))?;
    let class = make(alloc, components.as_slice())?;
    Ok(print(alloc, &class)?)
}

/// The work of a command on the texts of its files.
pub fn work(alloc: Global, task: &Task, texts: &Texts) -> Result<Output, Halt>
    requires short { All (λ (t : Text). length t.bytes < 2 ^ 32) texts.now.classes }
    requires lists { length texts.now.lists ≡ lists_of task.now }
    requires tuned { IsTunedTask task.now }
    ensures { Comes (work task.now texts.now) result }
{
    match task {
        Task::Check => check(alloc, texts),
        Task::Main => main(alloc, texts),
        Task::Graph { start } => graph(alloc, start, texts),
        Task::Serial { start, tuning } => serial(alloc, start, *tuning, texts),
    }
}
