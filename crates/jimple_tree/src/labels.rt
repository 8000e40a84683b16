// The numbers of a body's labels: one table for each body, in which jumps look theirs up.
// Statements and bodies stand above, only the tree below.
ghost use Rattle.std.specs.Prelude.{◌≡◌, ◌+◌, ◌++◌, ◌<◌, ◌≤◌, ℕ, All, IfOk, OnOk, length, map, replicate, sum, take, slice_index, slice_set};
ghost use Rattle.std.specs.List.{flat_map};
ghost use Rattle.jimple_tree.specs.Labels.{IsNumbered, catch_places, label_text, marked, targets_of};
ghost use Rattle.jimple_tree.specs.WellFormed.{BodyFits};

use crate::tree::{Body, Case, Catch, Stmt};
use itoa::Buffer;
use std::alloc::{AllocError, Global};

/// Writes the label of a number.
#[tactic(auto, unfolding(crate::specs::Labels::label_text))]
pub(crate) fn write_label(out: &mut Vec<u8>, number: u64) -> Result<(), AllocError>
    ensures { OnOk result (out.new.items ≡ out.old.items ++ label_text number) }
{
    let mut buffer = Buffer::new();
    out.extend_from_slice(b"label")?;
    out.extend_from_slice(buffer.format(number).as_bytes())
}

fn mark(marks: &mut [u64], place: u32)
    requires { place < length marks.old }
    ensures { marks.new ≡ slice_set marks.old place 1 }
{
    marks[place as usize] = 1;
}

fn mark_cases(marks: &mut [u64], cases: &[Case])
    requires { All (λ c. c.target < length marks.old) cases.now }
    ensures { marks.new ≡ marked (map (λ c. c.target) cases.now) marks.old }
{
    for case in cases {
        mark(marks, case.target);
    }
}

/// Marks the places that a statement names.
fn mark_targets(marks: &mut [u64], stmt: &Stmt)
    requires { All (λ t. t < length marks.old) (targets_of stmt.now) }
    ensures { marks.new ≡ marked (targets_of stmt.now) marks.old }
{
    match stmt {
        Stmt::If { target, .. } => mark(marks, *target),
        Stmt::Goto(target) => mark(marks, *target),
        Stmt::Switch { cases, default, .. } => {
            mark_cases(marks, cases.as_slice());
            mark(marks, *default);
        }
        _ => {}
    }
}

fn mark_stmts(marks: &mut [u64], stmts: &[Stmt])
    requires { All (λ s. All (λ t. t < length marks.old) (targets_of s)) stmts.now }
    ensures { marks.new ≡ marked (flat_map targets_of stmts.now) marks.old }
{
    for stmt in stmts {
        mark_targets(marks, stmt);
    }
}

fn mark_catch(marks: &mut [u64], catch: &Catch)
    requires { All (λ t. t < length marks.old) (catch_places catch.now) }
    ensures { marks.new ≡ marked (catch_places catch.now) marks.old }
{
    mark(marks, catch.from);
    mark(marks, catch.to);
    mark(marks, catch.with);
}

fn mark_catches(marks: &mut [u64], catches: &[Catch])
    requires { All (λ c. All (λ t. t < length marks.old) (catch_places c)) catches.now }
    ensures { marks.new ≡ marked (flat_map catch_places catches.now) marks.old }
{
    for catch in catches {
        mark_catch(marks, catch);
    }
}

/// Replaces each mark by how many marks stand up to it.
fn add_up(marks: &mut [u64])
    requires { All (λ m. m ≤ 1) marks.old }
    ensures { (k : ℕ) → k < length marks.old → slice_index marks.new k ≡ sum (take (k + 1) marks.old) }
{
    let mut count = 0;
    for mark in marks.iter_mut() {
        count += *mark;
        *mark = count;
    }
}

fn zeros(alloc: Global, len: usize) -> Result<Vec<u64>, AllocError>
    ensures { IfOk result (λ v. v.items ≡ replicate len 0) }
{
    Vec::from_elem(alloc, 0u64, len)
}

/// The number of each place's label, and of the end's, whether or not it is named.
pub(crate) fn number_labels(alloc: Global, body: &Body) -> Result<Vec<u64>, AllocError>
    requires { BodyFits body.now }
    ensures { IfOk result (λ v. IsNumbered body.now v.items) }
{
    let stmts = body.stmts.as_slice();
    let mut labels = zeros(alloc, stmts.len() + 1)?;
    let marks = labels.as_mut_slice();
    mark_stmts(marks, stmts);
    mark_catches(marks, body.catches.as_slice());
    add_up(marks);
    Ok(labels)
}
