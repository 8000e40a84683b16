// The tables of contexts: numbers, callers and exits. Room is made before, so that opening a context and adding an
// entry take no memory.
ghost use Rattle.std.specs.Prelude.{◌≡◌, ◌⊎◌, ◌≤◌, ◌<◌, ◌+◌, ◌++◌, ◌∷◌, [], ℕ, IsTrue, false, length, slice_index, slice_set, Contains, IfSome, IfNone, IfOk, OnOk};
ghost use Rattle.indexmap.specs.IndexSet.{spare};
ghost use Rattle.ifds_model.specs.State.{At};
ghost use Rattle.entry_tables.specs.Lists.{KeepsRoom};
ghost use Rattle.entry_tables.specs.Rows.{IsEven};

use crate::places::{place_new, place_of};
use crate::rows::EntryRows;
use clean_base::{Plain, StmtId};
use ifds_model::Context;
use indexmap::IndexSet;
use std::alloc::{AllocError, Global};
use std::marker::Model;

/// Who waits for a context's exits: the number of the context that calls it, and the call.
#[derive(Clone, Copy, Debug, PartialEq, Eq, Hash)]
pub struct CallSite {
    pub caller: u64,
    pub call: StmtId,
}

impl Plain for CallSite {
    ghost use Rattle.std.proofs.Common.{rules};

    ghost exact = { λ x y h. Prim.search rules };
}

/// The known contexts, numbered from 0 in the order of opening, and for each its callers and its exits.
#[derive(Drop)]
pub struct EntryTables<F: Plain> {
    contexts: IndexSet<Context<F>>,
    callers: EntryRows<CallSite>,
    exits: EntryRows<F>,
    first: usize,
}

impl<F: Plain> Model for EntryTables<F> {
    ghost use Rattle.indexmap.specs.IndexSet.{spare};
    ghost use Rattle.entry_tables.specs.Tables.{Tables, tables_of, IsFit};

    ghost Value = { Tables F };

    ghost view = { λ s. tables_of s.contexts.keys s.callers s.exits s.first };

    ghost invariant = { λ s. IsFit s.contexts.keys (spare s.contexts) s.callers s.exits s.first };
}

impl<F: Plain> EntryTables<F> {
    ghost use Rattle.ifds_model.specs.State.{IsDistinct};
    ghost use Rattle.entry_tables.specs.Lists.{KeepsRoom, UsesRoomAt};
    ghost use Rattle.entry_tables.specs.Tables.{call_site, callers_of, exits_of, IsWhole, IsUnchanged, KeepsAllRoom};

    /// Tables that know no context.
    pub fn new(alloc: Global) -> Self
        ensures contexts { result.contexts ≡ [] }
        ensures callers { result.callers ≡ [] }
        ensures exits { result.exits ≡ [] }
    {
        EntryTables {
            contexts: IndexSet::new(alloc),
            callers: EntryRows::new(alloc),
            exits: EntryRows::new(alloc),
            first: 0,
        }
    }

    /// The context's number.
    pub fn known(&self, context: &Context<F>) -> Option<u64>
        ensures there { IfSome result (λ n. At self.now.contexts n context.now) }
        ensures unknown { IfNone result (¬ Contains self.now.contexts context.now) }
    {
        match place_of(&self.contexts, context) {
            Some(number) => Some(number as u64),
            None => None,
        }
    }

    /// Makes room for so many further contexts, and for so many callers of each of them once it is opened.
    ///
    /// The room for callers stays promised as long as there is room for a further context.
    pub fn reserve_contexts(&mut self, contexts: u64, callers: u64) -> Result<(), AllocError>
        ensures same { IsUnchanged self.old self.new }
        ensures kept { KeepsAllRoom self.old self.new }
        ensures ok { OnOk result (contexts ≤ self.new.spare_contexts) }
        ensures ready { OnOk result (callers ≤ self.new.first_callers) }
    {
        let known = self.contexts.len();
        let Some(count) = known.checked_add(contexts as usize) else {
            return Err(AllocError);
        };
        self.contexts.reserve(contexts as usize)?;
        self.first = raise_first(&mut self.callers, known, self.first, callers as usize)?;
        self.exits.prepare(count, 0)?;
        self.callers.prepare(count, self.first)
    }

    /// Makes room for so many further callers and exits of a context.
    pub fn reserve_entries(
        &mut self,
        context: u64,
        callers: u64,
        exits: u64,
    ) -> Result<(), AllocError>
        requires { context < length self.old.contexts }
        ensures same { IsUnchanged self.old self.new }
        ensures kept { KeepsAllRoom self.old self.new }
        ensures callers { OnOk result (callers ≤ slice_index self.new.spare_callers context) }
        ensures exits { OnOk result (exits ≤ slice_index self.new.spare_exits context) }
    {
        self.callers.reserve(context as usize, callers as usize)?;
        self.exits.reserve(context as usize, exits as usize)
    }

    /// Gives a context the next number, without callers or exits.
    pub fn open_context(&mut self, context: Context<F>) -> u64
        requires unknown { ¬ Contains self.old.contexts context }
        requires room { 0 < self.old.spare_contexts }
        ensures number { result ≡ length self.old.contexts }
        ensures contexts { self.new.contexts ≡ self.old.contexts ++ context ∷ [] }
        ensures callers { self.new.callers ≡ self.old.callers ++ [] ∷ [] }
        ensures exits { self.new.exits ≡ self.old.exits ++ [] ∷ [] }
        ensures spare { self.old.spare_contexts ≤ self.new.spare_contexts + 1 }
        ensures first { self.new.first_callers ≡ self.old.first_callers }
        ensures ready { self.old.first_callers ≤ slice_index self.new.spare_callers result }
        ensures spare_callers { KeepsRoom self.old.spare_callers self.new.spare_callers }
        ensures spare_exits { KeepsRoom self.old.spare_exits self.new.spare_exits }
    {
        place_new(&mut self.contexts, context) as u64
    }

    /// Adds a caller of a context where it is not there yet, and tells whether it is new.
    pub fn add_caller(&mut self, callee: u64, caller: u64, call: StmtId) -> bool
        requires callee { callee < length self.old.contexts }
        requires caller { caller < length self.old.contexts }
        requires room { Contains (callers_of self.old callee) (call_site caller call) ⊎ (0 < slice_index self.old.spare_callers callee) }
        ensures is_new { IsTrue result → ¬ Contains (callers_of self.old callee) (call_site caller call) }
        ensures added { IsTrue result → self.new.callers ≡ slice_set self.old.callers callee (callers_of self.old callee ++ call_site caller call ∷ []) }
        ensures was { result ≡ false → Contains (callers_of self.old callee) (call_site caller call) }
        ensures same { result ≡ false → self.new.callers ≡ self.old.callers }
        ensures contexts { self.new.contexts ≡ self.old.contexts }
        ensures exits { self.new.exits ≡ self.old.exits }
        ensures spare_callers { UsesRoomAt callee self.old.spare_callers self.new.spare_callers }
        ensures spare_exits { self.new.spare_exits ≡ self.old.spare_exits }
        ensures spare { self.new.spare_contexts ≡ self.old.spare_contexts }
        ensures first { self.new.first_callers ≡ self.old.first_callers }
    {
        self.callers.add(callee as usize, CallSite { caller, call })
    }

    /// Adds an exit of a context where it is not there yet, and tells whether it is new.
    pub fn add_exit(&mut self, context: u64, exit: F) -> bool
        requires context { context < length self.old.contexts }
        requires room { Contains (exits_of self.old context) exit ⊎ (0 < slice_index self.old.spare_exits context) }
        ensures is_new { IsTrue result → ¬ Contains (exits_of self.old context) exit }
        ensures added { IsTrue result → self.new.exits ≡ slice_set self.old.exits context (exits_of self.old context ++ exit ∷ []) }
        ensures was { result ≡ false → Contains (exits_of self.old context) exit }
        ensures same { result ≡ false → self.new.exits ≡ self.old.exits }
        ensures contexts { self.new.contexts ≡ self.old.contexts }
        ensures callers { self.new.callers ≡ self.old.callers }
        ensures spare_exits { UsesRoomAt context self.old.spare_exits self.new.spare_exits }
        ensures spare_callers { self.new.spare_callers ≡ self.old.spare_callers }
        ensures spare { self.new.spare_contexts ≡ self.old.spare_contexts }
        ensures first { self.new.first_callers ≡ self.old.first_callers }
    {
        self.exits.add(context as usize, exit)
    }

    /// The number of known contexts.
    pub fn contexts(&self) -> u64
        ensures count { result ≡ length self.now.contexts }
        ensures whole { IsWhole self.now }
    {
        self.contexts.len() as u64
    }

    /// The context with a number.
    pub fn context(&self, context: u64) -> Context<F>
        requires { context < length self.now.contexts }
        ensures { At self.now.contexts context result }
    {
        self.contexts.as_slice()[context as usize]
    }

    /// How many callers a context has.
    pub fn caller_count(&self, context: u64) -> u64
        requires { context < length self.now.contexts }
        ensures count { result ≡ length (callers_of self.now context) }
        ensures distinct { IsDistinct (callers_of self.now context) }
    {
        self.callers.len(context as usize) as u64
    }

    /// A caller of a context, by the order of adding.
    pub fn caller_at(&self, context: u64, at: u64) -> CallSite
        requires context { context < length self.now.contexts }
        requires at { at < length (callers_of self.now context) }
        ensures { At (callers_of self.now context) at result }
    {
        self.callers.get(context as usize, at as usize)
    }

    /// How many exits a context has.
    pub fn exit_count(&self, context: u64) -> u64
        requires { context < length self.now.contexts }
        ensures count { result ≡ length (exits_of self.now context) }
        ensures distinct { IsDistinct (exits_of self.now context) }
    {
        self.exits.len(context as usize) as u64
    }

    /// An exit of a context, by the order of adding.
    pub fn exit_at(&self, context: u64, at: u64) -> F
        requires context { context < length self.now.contexts }
        requires at { at < length (exits_of self.now context) }
        ensures { At (exits_of self.now context) at result }
    {
        self.exits.get(context as usize, at as usize)
    }
}

// Makes room for so many callers of each context that waits, and tells how much room each of them has. Where none waits
// there is no room to keep.
fn raise_first(
    callers: &mut EntryRows<CallSite>,
    known: usize,
    first: usize,
    more: usize,
) -> Result<usize, AllocError>
    requires known { known ≤ length callers.old.lists }
    requires ready { (k : ℕ) → known ≤ k → k < length callers.old.lists → first ≤ slice_index callers.old.rooms k }
    ensures same { callers.new.lists ≡ callers.old.lists }
    ensures even { IsEven callers.new }
    ensures kept { KeepsRoom callers.old.rooms callers.new.rooms }
    ensures more { IfOk result (λ n. more ≤ n) }
    ensures least { IfOk result (λ n. known < length callers.old.lists → first ≤ n) }
    ensures raised { IfOk result (λ n. (k : ℕ) → known ≤ k → k < length callers.new.lists → n ≤ slice_index callers.new.rooms k) }
{
    if callers.count() == known {
        return Ok(more);
    }
    if first < more {
        callers.raise(known, more)?;
    }
    Ok(first.max(more))
}
