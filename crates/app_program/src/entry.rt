// Where a program is entered. Tables of classes and the generated main method stand below; programs above.
ghost use Rattle.std.specs.Prelude.{◌≡◌, ◌↔◌, All, IfErr, IfOk, IsTrue, OnOk};
ghost use Rattle.clean_base.specs.declared.fault.InputFault.{InputFault};
ghost use Rattle.clean_base.specs.declared.ids.MethodId.{MethodId};
ghost use Rattle.class_table.specs.Concrete.{IsConcrete};
ghost use Rattle.class_table.specs.Methods.{IsDeclared};
ghost use Rattle.dummy_main.specs.Layout.{main_sig};
ghost use Rattle.app_program.specs.Entry.{AreKnown, IsOnlyRootFault, IsRoot, IsRootFault, IsUnknown, RootRefused, Undeclared, UnknownRefused};

use class_table::ClassTable;
use clean_base::{InputFault, MethodId, Name, Seq, Stop};
use dummy_main::{Component, main_sig};
use jimple_tree::Sig;
use std::alloc::{AllocError, Global};

/// Where a program is entered.
#[derive(Debug, Drop)]
pub enum Entry {
    /// At the method with a body that is declared under this signature.
    Method(Sig),
    /// At the method that is generated for these components. Its class is one of the program's.
    Components(Seq<Component>),
}

fn is_concrete(table: &ClassTable, name: &Name) -> bool
    ensures { IsTrue result ↔ IsConcrete table.now name.now }
{
    match table.find(name) {
        Some(class) => table.is_concrete(class),
        None => false,
    }
}

// That a component of this name isn't known.
fn unknown(alloc: Global, name: &Name) -> Stop
    ensures { IsUnknown name.now result }
{
    match name.copy(alloc) {
        Ok(name) => Stop::Fault(InputFault::ComponentMissing { name }),
        Err(AllocError) => Stop::OutOfMemory,
    }
}

// That all components are known; else the first that isn't.
fn check_known(alloc: Global, table: &ClassTable, components: &[Component]) -> Result<(), Stop>
    ensures ok { OnOk result (AreKnown table.now components.now) }
    ensures err { IfErr result (UnknownRefused table.now components.now) }
{
    for component in components {
        if !is_concrete(table, &component.name) {
            return Err(unknown(alloc, &component.name));
        }
    }
    Ok(())
}

// The method that is declared under the signature.
fn declared(table: &ClassTable, sig: &Sig) -> Result<MethodId, Stop>
    ensures some { IfOk result (IsDeclared table.now sig.now) }
    ensures one { IfOk result (λ m. (n : MethodId) → IsDeclared table.now sig.now n → n ≡ m) }
    ensures none { IfErr result (Undeclared table.now sig.now) }
{
    match table.find_method(sig) {
        Some(root) => Ok(root),
        None => Err(Stop::Fault(InputFault::EntryMissing)),
    }
}

// The method that is generated for components.
fn generated(alloc: Global, table: &ClassTable) -> Result<MethodId, Stop>
    ensures ok { IfOk result (IsDeclared table.now main_sig) }
    ensures one { IfOk result (λ m. (n : MethodId) → IsDeclared table.now main_sig n → n ≡ m) }
    ensures none { IfErr result (Undeclared table.now main_sig) }
{
    match main_sig(alloc) {
        Ok(sig) => declared(table, &sig),
        Err(AllocError) => Err(Stop::OutOfMemory),
    }
}

/// The method where classes are entered.
///
/// An error is the first fault: a component that is no concrete class, or that no method with a body is declared under the
/// entry's signature; or want of memory.
pub fn root_of(alloc: Global, table: &ClassTable, entry: &Entry) -> Result<MethodId, Stop>
    ensures ok { IfOk result (IsRoot table.now entry.now) }
    ensures one { IfOk result (λ m. (n : MethodId) → IsRoot table.now entry.now n → n ≡ m) }
    ensures faultless { OnOk result ((f : InputFault) → IsRootFault table.now entry.now f → ⊥) }
    ensures err { IfErr result (RootRefused table.now entry.now) }
    ensures only { IfErr result (IsOnlyRootFault table.now entry.now) }
{
    match entry {
        Entry::Method(sig) => declared(table, sig),
        Entry::Components(components) => {
            check_known(alloc, table, components.as_slice())?;
            generated(alloc, table)
        }
    }
}
