// What is reached from each node of a graph, as rows of bits: each row begins with its node's own bit, and takes in those of
// the nodes to which one step leads from it, until no row grows. The rows are taken in the order in which a search was done
// with their nodes, so that a graph without cycles has all bits after one pass.
ghost use Rattle.std.specs.Prelude.{◌≡◌, ◌↔◌, ◌<◌, ◌≤◌, ◌+◌, ◌*◌, ◌/◌, ℕ, All, Contains, IsTrue, false, length, IfOk};
ghost use Rattle.clean_base.specs.Limits.{most_methods};
ghost use Rattle.reach_rows.specs.Bits.{has_bit, HasBit, with_word, total, Grows, GainsFrom, HasRows, IsSound, AreClosed, IsClosed, IsShaped, IsOwn, IsOwnOnly};
ghost use Rattle.reach_rows.specs.Closure.{has, IsClosure};
ghost use Rattle.reach_rows.specs.Graphs.{row, IsGraph};

use crate::search::finished;
use clean_base::Seq;
use std::alloc::{AllocError, Global};
use std::marker::Model;

/// What is reached from each node of a graph, as a row of bits for each node.
#[derive(Debug, Drop)]
pub struct Rows {
    count: usize,
    /// The words of a row.
    width: usize,
    bits: Vec<u64>,
}

impl Model for Rows {
    ghost use Rattle.reach_rows.specs.Bits.{lists_of, IsShaped};
    ghost use Rattle.reach_rows.specs.Closure.{Closure};

    ghost Value = { Closure };

    ghost view = { λ s. record { count = s.count; rows = lists_of s.count s.width s.bits.items } };

    ghost invariant = { λ s. IsShaped s.count s.width s.bits.items };
}

impl Rows {
    /// Whether `b` is reached from `a` by zero or more steps. It takes no memory.
    pub fn has(&self, a: u32, b: u32) -> bool
        requires { (a < self.now.count) × (b < self.now.count) }
        ensures { result ≡ has self.now a b }
    {
        bit(self.bits.as_slice(), self.width, a as usize, b as usize)
    }
}

// A bit of a row.
fn bit(bits: &[u64], width: usize, a: usize, b: usize) -> bool
    requires { a * width + b / 64 < length bits.now }
    ensures { result ≡ has_bit width bits.now a b }
{
    let word = bits[a * width + b / 64];
    (word >> (b % 64)) & 1 == 1
}

// Adds the bits of one word to another, and tells whether that one lacked any.
fn add_word(bits: &mut [u64], at: usize, from: usize) -> bool
    requires at { at < length bits.old }
    requires from { from < length bits.old }
    ensures set { bits.new ≡ with_word bits.old at from }
    ensures more { IsTrue result → total bits.old < total bits.new }
    ensures same { result ≡ false → bits.new ≡ bits.old }
{
    let word = bits[at] | bits[from];
    if word == bits[at] {
        return false;
    }
    bits[at] = word;
    true
}

// The row of `a` takes in that of `b`, and it is told whether it grew.
fn take_in(bits: &mut [u64], width: usize, a: usize, b: usize) -> bool
    requires a { a * width + width ≤ length bits.old }
    requires b { b * width + width ≤ length bits.old }
    ensures grows { Grows width bits.old bits.new result }
    ensures gains { GainsFrom width a b bits.old bits.new }
    ensures taken { (c : ℕ) → c / 64 < width → HasBit width bits.old b c → HasBit width bits.new a c }
{
    let mut grown = false;
    for column in 0..width {
        let added = add_word(bits, a * width + column, b * width + column);
        grown |= added;
    }
    grown
}

// The row of a node takes in those of all nodes to which one step leads from it.
fn grow_row(bits: &mut [u64], width: usize, rows: &[Seq<u32>], a: usize) -> bool
    requires graph { IsGraph rows.now }
    requires fits { IsShaped (length rows.now) width bits.old }
    requires node { a < length rows.now }
    ensures grows { Grows width bits.old bits.new result }
    ensures sound { IsSound rows.now width bits.old → IsSound rows.now width bits.new }
    ensures closed { result ≡ false → HasRows width bits.new a (row rows.now a) }
{
    let mut grown = false;
    let nodes = rows[a].as_slice();
    for b in nodes {
        let added = take_in(bits, width, a, *b as usize);
        grown |= added;
    }
    grown
}

// The rows of these nodes do, one after the other.
fn grow_all(bits: &mut [u64], width: usize, rows: &[Seq<u32>], order: &[u32]) -> bool
    requires graph { IsGraph rows.now }
    requires fits { IsShaped (length rows.now) width bits.old }
    requires nodes { All (λ a. a < length rows.now) order.now }
    ensures grows { Grows width bits.old bits.new result }
    ensures sound { IsSound rows.now width bits.old → IsSound rows.now width bits.new }
    ensures closed { result ≡ false → AreClosed rows.now width bits.new order.now }
{
    let mut grown = false;
    for node in order {
        let added = grow_row(bits, width, rows, *node as usize);
        grown |= added;
    }
    grown
}

// The rows grow until none does. `order` has all nodes.
fn grow(bits: &mut [u64], width: usize, rows: &[Seq<u32>], order: &[u32])
    requires graph { IsGraph rows.now }
    requires fits { IsShaped (length rows.now) width bits.old }
    requires nodes { (a : ℕ) → Contains order.now a ↔ (a < length rows.now) }
    ensures kept { (a b : ℕ) → HasBit width bits.old a b → HasBit width bits.new a b }
    ensures sound { IsSound rows.now width bits.old → IsSound rows.now width bits.new }
    ensures closed { IsClosed rows.now width bits.new }
{
    let mut grown = true;
    while grown {
        grown = grow_all(bits, width, rows, order);
    }
}

// So many words with no bit set.
fn no_bits(alloc: Global, words: usize) -> Result<Vec<u64>, AllocError>
    ensures len { IfOk result (λ bits. length bits.items ≡ words) }
    ensures none { IfOk result (λ bits. All (λ w. w ≡ 0) bits.items) }
{
    vec![in alloc; 0u64; words]
}

// Sets the own bit of a node.
fn set_own(bits: &mut [u64], width: usize, a: usize)
    requires word { a * width + a / 64 < length bits.old }
    requires column { a / 64 < width }
    ensures own { HasBit width bits.new a a }
    ensures kept { (x c : ℕ) → HasBit width bits.old x c → HasBit width bits.new x c }
    ensures only { IsOwnOnly width bits.old → IsOwnOnly width bits.new }
{
    bits[a * width + a / 64] |= 1 << (a % 64);
}

// Sets those of all nodes.
fn set_owns(bits: &mut [u64], count: usize, width: usize)
    requires fits { IsShaped count width bits.old }
    requires none { All (λ w. w ≡ 0) bits.old }
    ensures own { IsOwn count width bits.new }
    ensures only { IsOwnOnly width bits.new }
{
    for a in 0..count {
        set_own(bits, width, a);
    }
}

// Sets the bits of all pairs that are reached.
fn fill(bits: &mut [u64], width: usize, rows: &[Seq<u32>], order: &[u32])
    requires graph { IsGraph rows.now }
    requires fits { IsShaped (length rows.now) width bits.old }
    requires nodes { (a : ℕ) → Contains order.now a ↔ (a < length rows.now) }
    requires none { All (λ w. w ≡ 0) bits.old }
    ensures sound { IsSound rows.now width bits.new }
    ensures own { IsOwn (length rows.now) width bits.new }
    ensures closed { IsClosed rows.now width bits.new }
{
    set_owns(bits, rows.len(), width);
    grow(bits, width, rows, order);
}

/// What is reached from each node of a graph by zero or more steps. The graph has at most as many nodes as
/// there may be methods with a body, whose bits take at most 128 MB.
pub fn close(alloc: Global, rows: &[Seq<u32>]) -> Result<Rows, AllocError>
    requires graph { IsGraph rows.now }
    requires few { length rows.now ≤ most_methods }
    ensures { IfOk result (λ closure. IsClosure rows.now closure) }
{
    let count = rows.len();
    let width = count.div_ceil(64);
    let order = finished(alloc, rows)?;
    let mut bits = no_bits(alloc, count * width)?;
    fill(bits.as_mut_slice(), width, rows, order.as_slice());
    Ok(Rows { count, width, bits })
}
