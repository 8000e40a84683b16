// What is known of the calls of a program: each signature is looked up once for each way in which it is called. Calls stand
// below, the graph above.
ghost use Rattle.std.specs.Prelude.{◌≡◌, ◌<◌, [], Contains, IfOk, length};
ghost use Rattle.clean_base.specs.Lists.{At};
ghost use Rattle.jimple_tree.specs.declared.tree.Sig.{Sig};
ghost use Rattle.call_graph.specs.Known.{AreKnown, IsKnown, sigs_of};

use crate::calls::{kind_of, open_targets};
use class_table::ClassTable;
use clean_base::{MethodId, Seq};
use indexmap::IndexSet;
use jimple_tree::{InvokeKind, Sig};
use source_sink::{Kind, Lists};
use std::alloc::{AllocError, Global};
use std::marker::Model;

/// What the lists say of a signature, and the methods that an open call of one kind may come to, in the order of their numbers.
#[derive(Debug, Drop)]
pub struct KnownSig {
    pub said: Kind,
    pub targets: Seq<MethodId>,
}

// Signatures, each looked up the first time, for calls of one kind.
#[derive(Drop)]
struct KnownSigs {
    sigs: IndexSet<Sig>,
    // What is known of each, in the same order. One more stands there where memory was wanting for its signature.
    known: Vec<KnownSig>,
}

/// The signatures of the calls of a program, each looked up the first time that it is called so.
#[derive(Drop)]
pub struct KnownCalls<'a> {
    table: &'a ClassTable,
    lists: &'a Lists,
    // For static and special calls, and for virtual calls and those of interfaces.
    own: KnownSigs,
    below: KnownSigs,
}

impl<'a> Model for KnownCalls<'a> {
    ghost use Rattle.call_graph.specs.Known.{AreKnown, Known};
    ghost use Rattle.jimple_tree.specs.declared.tree.InvokeKind.TheVariants as kinds;

    ghost Value = { Known };

    ghost view = { λ s. record { classes = s.table.now; lines = s.lists.now; own = s.own.sigs.keys; below = s.below.sigs.keys } };

    ghost invariant = { λ s. AreKnown s.table.now s.lists.now kinds.Special s.own.sigs.keys s.own.known.items × AreKnown s.table.now s.lists.now kinds.Virtual s.below.sigs.keys s.below.known.items };
}

// What is known of a signature for calls of a kind.
fn look_up(
    alloc: Global,
    table: &ClassTable,
    lists: &Lists,
    kind: InvokeKind,
    sig: &Sig,
) -> Result<KnownSig, AllocError>
    ensures { IfOk result (IsKnown table.now lists.now kind sig.now) }
{
    let said = kind_of(alloc, table, lists, sig)?;
    let targets = open_targets(alloc, table, said, kind, sig)?;
    Ok(KnownSig {
        said,
        targets: Seq::from_vec(targets),
    })
}

impl KnownSigs {
    fn new(alloc: Global) -> KnownSigs
        ensures { result.sigs.keys ≡ [] }
    {
        KnownSigs {
            sigs: IndexSet::new(alloc),
            known: Vec::new(alloc),
        }
    }

    // Adds a signature that isn't known yet, at the end.
    fn add(
        &mut self,
        alloc: Global,
        table: &ClassTable,
        lists: &Lists,
        kind: InvokeKind,
        sig: &Sig,
    ) -> Result<usize, AllocError>
        requires known { AreKnown table.now lists.now kind self.old.sigs.keys self.old.known.items }
        requires new { Contains self.old.sigs.keys sig.now → ⊥ }
        ensures known { AreKnown table.now lists.now kind self.new.sigs.keys self.new.known.items }
        ensures at { IfOk result (λ i. At self.new.sigs.keys i sig.now) }
    {
        let place = self.sigs.len();
        self.known.truncate(place);
        self.known.push(look_up(alloc, table, lists, kind, sig)?)?;
        self.sigs.insert(sig.copy(alloc)?)?;
        Ok(place)
    }

    // The place of a signature among those that are known.
    fn know(
        &mut self,
        alloc: Global,
        table: &ClassTable,
        lists: &Lists,
        kind: InvokeKind,
        sig: &Sig,
    ) -> Result<usize, AllocError>
        requires { AreKnown table.now lists.now kind self.old.sigs.keys self.old.known.items }
        ensures known { AreKnown table.now lists.now kind self.new.sigs.keys self.new.known.items }
        ensures at { IfOk result (λ i. At self.new.sigs.keys i sig.now) }
    {
        match self.sigs.get_index_of(sig) {
            Some(place) => Ok(place),
            None => self.add(alloc, table, lists, kind, sig),
        }
    }
}

impl<'a> KnownCalls<'a> {
    /// Nothing is known yet of the calls of these classes.
    pub fn new(alloc: Global, table: &'a ClassTable, lists: &'a Lists) -> KnownCalls<'a>
        ensures { result ≡ record { classes = table.now; lines = lists.now; own = []; below = [] } }
    {
        KnownCalls {
            table,
            lists,
            own: KnownSigs::new(alloc),
            below: KnownSigs::new(alloc),
        }
    }

    /// The place of a signature among those that are known for calls of the kind. It is looked up where it is new.
    pub fn know(&mut self, alloc: Global, kind: InvokeKind, sig: &Sig) -> Result<usize, AllocError>
        ensures classes { self.new.classes ≡ self.old.classes }
        ensures lines { self.new.lines ≡ self.old.lines }
        ensures at { IfOk result (λ i. At (sigs_of kind self.new) i sig.now) }
    {
        match kind {
            InvokeKind::Static | InvokeKind::Special => {
                self.own
                    .know(alloc, self.table, self.lists, InvokeKind::Special, sig)
            }
            InvokeKind::Virtual | InvokeKind::Interface => {
                self.below
                    .know(alloc, self.table, self.lists, InvokeKind::Virtual, sig)
            }
        }
    }

    /// What is known of the signature at a place, for calls of the kind.
    pub fn at(&self, kind: InvokeKind, place: usize) -> &KnownSig
        requires { place < length (sigs_of kind self.now) }
        ensures { (sig : Sig) → At (sigs_of kind self.now) place sig → IsKnown self.now.classes self.now.lines kind sig result.now }
    {
        match kind {
            InvokeKind::Static | InvokeKind::Special => &self.own.known[place],
            InvokeKind::Virtual | InvokeKind::Interface => &self.below.known[place],
        }
    }
}
