// What calls are: their kinds and their targets. The table of classes and the lists stand below; the graph above.
ghost use Rattle.std.specs.Prelude.{◌≡◌, ◌<◌, ◌↔◌, ◌⊎◌, Contains, IsTrue, IfOk, Some, length, map};
ghost use Rattle.std.specs.List.Sorted.{IsStrictlyIncreasing};
ghost use Rattle.clean_base.specs.declared.ids.MethodId.{MethodId};
ghost use Rattle.source_sink.specs.declared.line.Line.{Line};
ghost use Rattle.class_table.specs.Hierarchy.{class_names};
ghost use Rattle.call_graph.specs.ByNumber.{IsChosen, ResolvesAt, ResolvesIn, SaysIn};
ghost use Rattle.call_graph.specs.Calls.{IsKind, IsNeither, IsTarget, IsTargetOf};

use class_table::ClassTable;
use clean_base::{ClassId, MethodId};
use jimple_tree::{Invoke, InvokeKind, Sig};
use source_sink::{Kind, Lists, either};
use std::alloc::{AllocError, Global};

// The kind, and what the lists say of the signature in the marked classes.
fn with_classes(kind: Kind, table: &ClassTable, lists: &Lists, marks: &[bool], sig: &Sig) -> Kind
    requires { length marks.now ≡ length (class_names table.now) }
    ensures source { IsTrue result.source ↔ (IsTrue kind.source ⊎ SaysIn table.now lists.now marks.now sig.now (λ (l : Line). l.source)) }
    ensures sink { IsTrue result.sink ↔ (IsTrue kind.sink ⊎ SaysIn table.now lists.now marks.now sig.now (λ (l : Line). l.sink)) }
{
    let mut all = kind;
    for number in 0..table.classes() {
        if marks[number as usize] {
            let class = table.name(ClassId(number));
            all = either(all, lists.kind(class, sig));
        }
    }
    all
}

/// What the lists say of a call of the signature: of the signature itself, and of the same one in each class above its own.
pub fn kind_of(
    alloc: Global,
    table: &ClassTable,
    lists: &Lists,
    sig: &Sig,
) -> Result<Kind, AllocError>
    ensures source { IfOk result (λ kind. IsTrue kind.source ↔ IsKind table.now lists.now sig.now (λ (l : Line). l.source)) }
    ensures sink { IfOk result (λ kind. IsTrue kind.sink ↔ IsKind table.now lists.now sig.now (λ (l : Line). l.sink)) }
{
    let own = lists.kind(&sig.class, sig);
    // Most signatures have a name of which no line speaks: for them no class is looked at.
    if !lists.names(&sig.name) {
        return Ok(own);
    }
    let Some(class) = table.find(&sig.class) else {
        return Ok(own);
    };
    let marks = table.supertypes(alloc, class)?;
    Ok(with_classes(own, table, lists, marks.as_slice(), sig))
}

// The method that the signature comes to on a class.
fn resolved_on(
    alloc: Global,
    table: &ClassTable,
    class: ClassId,
    sig: &Sig,
) -> Result<Vec<MethodId>, AllocError>
    ensures ascending { IfOk result (λ v. IsStrictlyIncreasing (map (λ (m : MethodId). m.0) v.items)) }
    ensures exact { IfOk result (λ v. (n : MethodId) → Contains v.items n ↔ ResolvesAt table.now class sig.now n) }
{
    let mut found = Vec::new(alloc);
    if let Some(method) = table.resolve(alloc, class, sig)? {
        found.push(method)?;
    }
    Ok(found)
}

// Of these methods that of the class with this number, where it is marked and concrete.
fn chosen(
    table: &ClassTable,
    marks: &[bool],
    methods: &[Option<MethodId>],
    number: u32,
) -> Option<MethodId>
    requires number { number < length (class_names table.now) }
    requires marks { length marks.now ≡ length (class_names table.now) }
    requires methods { length methods.now ≡ length (class_names table.now) }
    ensures { (n : MethodId) → (result ≡ Some n) ↔ IsChosen table.now marks.now methods.now number n }
{
    if !marks[number as usize] {
        return None;
    }
    if !table.is_concrete(ClassId(number)) {
        return None;
    }
    methods[number as usize]
}

// The methods that the signature comes to on the concrete ones of the marked classes.
fn resolved_in(
    alloc: Global,
    table: &ClassTable,
    marks: &[bool],
    sig: &Sig,
) -> Result<Vec<MethodId>, AllocError>
    requires { length marks.now ≡ length (class_names table.now) }
    ensures { IfOk result (λ v. (n : MethodId) → Contains v.items n ↔ ResolvesIn table.now marks.now sig.now n) }
{
    let methods = table.resolved(alloc, sig)?;
    let mut found = Vec::new(alloc);
    for number in 0..table.classes() {
        if let Some(method) = chosen(table, marks, methods.as_slice(), number) {
            found.push(method)?;
        }
    }
    Ok(found)
}

// The methods in order, each once.
pub fn in_order(methods: Vec<MethodId>) -> Vec<MethodId>
    ensures ascending { IsStrictlyIncreasing (map (λ (m : MethodId). m.0) result.items) }
    ensures same { (m : MethodId) → Contains result.items m ↔ Contains methods.items m }
{
    let mut methods = methods;
    methods.sort_unstable();
    methods.dedup();
    methods
}

// The methods with a body that a call of this kind and signature may come to, in the order of their numbers.
fn targets_of(
    alloc: Global,
    table: &ClassTable,
    kind: InvokeKind,
    sig: &Sig,
) -> Result<Vec<MethodId>, AllocError>
    ensures ascending { IfOk result (λ v. IsStrictlyIncreasing (map (λ (m : MethodId). m.0) v.items)) }
    ensures exact { IfOk result (λ v. (n : MethodId) → Contains v.items n ↔ IsTargetOf table.now kind sig.now n) }
{
    let Some(class) = table.find(&sig.class) else {
        return Ok(Vec::new(alloc));
    };
    match kind {
        InvokeKind::Static | InvokeKind::Special => resolved_on(alloc, table, class, sig),
        InvokeKind::Virtual | InvokeKind::Interface => {
            let marks = table.subtypes(alloc, class)?;
            let found = resolved_in(alloc, table, marks.as_slice(), sig)?;
            Ok(in_order(found))
        }
    }
}

/// The methods with a body that a call may come to, in the order of their numbers.
pub fn targets(
    alloc: Global,
    table: &ClassTable,
    call: &Invoke,
) -> Result<Vec<MethodId>, AllocError>
    ensures ascending { IfOk result (λ v. IsStrictlyIncreasing (map (λ (m : MethodId). m.0) v.items)) }
    ensures exact { IfOk result (λ v. (n : MethodId) → Contains v.items n ↔ IsTarget table.now call.now n) }
{
    targets_of(alloc, table, call.kind, &call.sig)
}

// The methods that a call may come to where it is open: none where the lists say source or sink of its signature.
pub fn open_targets(
    alloc: Global,
    table: &ClassTable,
    said: Kind,
    kind: InvokeKind,
    sig: &Sig,
) -> Result<Vec<MethodId>, AllocError>
    ensures ascending { IfOk result (λ v. IsStrictlyIncreasing (map (λ (m : MethodId). m.0) v.items)) }
    ensures exact { IfOk result (λ v. (n : MethodId) → Contains v.items n ↔ (IsTargetOf table.now kind sig.now n × IsNeither said)) }
{
    if said.source || said.sink {
        return Ok(Vec::new(alloc));
    }
    targets_of(alloc, table, kind, sig)
}
