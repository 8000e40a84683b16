// The table of classes: its names, graphs and methods stand below, and the call graph above.
ghost use Rattle.std.specs.Prelude.{◌≡◌, ◌↔◌, ◌<◌, ℕ, List, true, length, All, IfOk, IfErr, OnOk, IfSome, IfNone, IsTrue, Some, None};
ghost use Rattle.clean_base.specs.Lists.{At};
ghost use Rattle.clean_base.specs.declared.fault.InputFault.{InputFault};
ghost use Rattle.clean_base.specs.declared.ids.ClassId.{ClassId};
ghost use Rattle.clean_base.specs.declared.ids.MethodId.{MethodId};
ghost use Rattle.jimple_tree.specs.WellFormed.{IsWellFormed};
ghost use Rattle.jimple_tree.specs.declared.tree.Class.{Class};
ghost use Rattle.jimple_tree.specs.declared.tree.Method.{Method};
ghost use Rattle.class_table.specs.Concrete.{IsConcrete};
ghost use Rattle.class_table.specs.Faults.{IsFault, IsOnly, IsTable, Refused};
ghost use Rattle.class_table.specs.Hierarchy.{class_names, given, IsSubtype};
ghost use Rattle.class_table.specs.Links.{name_at};
ghost use Rattle.class_table.specs.Methods.{all_methods, stmts_in, IsDeclared, IsNumber};
ghost use Rattle.class_table.specs.Resolving.{Resolves};

use crate::limits::{has_few_methods, has_few_stmts, stmts_of_classes};
use crate::links::Links;
use crate::marks::{above, below};
use crate::members::{Members, find_method, method, owner};
use crate::modifiers::is_abstract;
use crate::names::{number_of, numbered};
use crate::resolve::{resolve, resolved};
use clean_base::{ClassId, InputFault, MethodId, Name, Stop};
use indexmap::IndexSet;
use jimple_tree::{Class, Method, Sig};
use std::alloc::{AllocError, Global};
use std::marker::Model;

/// The classes of a program.
#[derive(Drop)]
pub struct ClassTable {
    classes: Vec<Class>,
    names: IndexSet<Name>,
    links: Links,
    members: Members,
}

impl Model for ClassTable {
    ghost use Rattle.std.specs.Prelude.{List};
    ghost use Rattle.jimple_tree.specs.declared.tree.Class.{Class};
    ghost use Rattle.class_table.specs.Kept.{IsKept};

    ghost Value = { List Class };

    ghost view = { λ t. t.classes.items };

    ghost invariant = { λ t. IsKept t.classes.items t.names.keys t.links t.members };
}

impl ClassTable {
    // The table of the classes, or the first of their faults.
    fn made(alloc: Global, classes: Vec<Class>) -> Result<ClassTable, Stop>
        requires { All IsWellFormed classes.items }
        ensures ok { IfOk result (λ t. (t ≡ classes.items) × IsTable classes.items) }
        ensures err { IfErr result (Refused classes.items) }
    {
        let names = numbered(alloc, classes.as_slice())?;
        let links = Links::new(alloc, &names, classes.as_slice())?;
        if !has_few_methods(classes.as_slice()) {
            return Err(Stop::Fault(InputFault::LimitMethods));
        }
        if !has_few_stmts(classes.as_slice()) {
            return Err(Stop::Fault(InputFault::LimitStmts));
        }
        let members = match Members::new(alloc, classes.as_slice()) {
            Ok(members) => members,
            Err(AllocError) => return Err(Stop::OutOfMemory),
        };
        Ok(ClassTable {
            classes,
            names,
            links,
            members,
        })
    }

    /// The table of the classes, in the order of reading. On a refusal the classes are gone.
    ///
    /// An error is the first fault of the classes, which is the only one that is told of them, or want of memory.
    pub fn build(alloc: Global, classes: Vec<Class>) -> Result<ClassTable, Stop>
        requires { All IsWellFormed classes.items }
        ensures ok { IfOk result (λ t. (t ≡ classes.items) × IsTable classes.items) }
        ensures faultless { OnOk result ((f : InputFault) → IsFault classes.items f → ⊥) }
        ensures err { IfErr result (Refused classes.items) }
        ensures only { IfErr result (IsOnly classes.items) }
    {
        ClassTable::made(alloc, classes)
    }

    /// The classes, in the order of reading.
    pub fn given(&self) -> &[Class]
        ensures same { result.now ≡ self.now }
        ensures table { IsTable self.now }
        ensures well_formed { All IsWellFormed self.now }
    {
        self.classes.as_slice()
    }

    /// How many numbers of classes there are: one for each name that a class has or that stands in a heading.
    pub fn classes(&self) -> u32
        ensures { result ≡ length (class_names self.now) }
    {
        self.names.len() as u32
    }

    /// The number of a name, where a class has it or names it in its heading.
    pub fn find(&self, name: &Name) -> Option<ClassId>
        ensures found { (c : ClassId) → (result ≡ Some c) ↔ At (class_names self.now) c.0 name.now }
        ensures given { IfNone result (given self.now name.now ≡ None) }
    {
        match number_of(&self.names, name) {
            Some(number) => Some(ClassId(number)),
            None => None,
        }
    }

    /// The name with this number.
    pub fn name(&self, class: ClassId) -> &Name
        requires { class.0 < length (class_names self.now) }
        ensures { result.now ≡ name_at self.now class.0 }
    {
        &self.names.as_slice()[class.0 as usize]
    }

    /// The class that was given under the name with this number.
    pub fn class(&self, class: ClassId) -> Option<&Class>
        requires { class.0 < length (class_names self.now) }
        ensures some { IfSome result (λ c. given self.now (name_at self.now class.0) ≡ Some c.now) }
        ensures none { IfNone result (given self.now (name_at self.now class.0) ≡ None) }
    {
        self.classes.get(class.0 as usize)
    }

    /// For each number of a name whether it is the class, or stands above it along headings.
    pub fn supertypes(&self, alloc: Global, class: ClassId) -> Result<Vec<bool>, AllocError>
        requires { class.0 < length (class_names self.now) }
        ensures count { IfOk result (λ v. length v.items ≡ length (class_names self.now)) }
        ensures exact { IfOk result (λ v. (name : ClassId) → At v.items name.0 true ↔ IsSubtype self.now class name) }
    {
        let headings = self.links.headings.as_slice();
        above(alloc, headings, self.links.order.as_slice(), class.0)
    }

    /// For each number of a name whether it is the class, or stands below it along headings.
    pub fn subtypes(&self, alloc: Global, class: ClassId) -> Result<Vec<bool>, AllocError>
        requires { class.0 < length (class_names self.now) }
        ensures count { IfOk result (λ v. length v.items ≡ length (class_names self.now)) }
        ensures exact { IfOk result (λ v. (name : ClassId) → At v.items name.0 true ↔ IsSubtype self.now name class) }
    {
        let headings = self.links.headings.as_slice();
        below(alloc, headings, self.links.order.as_slice(), class.0)
    }

    /// Whether the second class is the first, or stands above it along headings.
    pub fn subtype(&self, alloc: Global, a: ClassId, b: ClassId) -> Result<bool, AllocError>
        ensures { IfOk result (λ is. IsTrue is ↔ IsSubtype self.now a b) }
    {
        if a == b {
            return Ok(true);
        }
        if a.0 >= self.classes() || b.0 >= self.classes() {
            return Ok(false);
        }
        let marks = self.supertypes(alloc, a)?;
        Ok(marks[b.0 as usize])
    }

    /// Whether the name is that of a concrete class.
    pub fn is_concrete(&self, class: ClassId) -> bool
        requires { class.0 < length (class_names self.now) }
        ensures { IsTrue result ↔ IsConcrete self.now (name_at self.now class.0) }
    {
        match self.class(class) {
            Some(class) => !class.is_interface && !is_abstract(class.modifiers.as_slice()),
            None => false,
        }
    }

    /// How many methods have a body.
    pub fn methods(&self) -> u32
        ensures { result ≡ length (all_methods self.now) }
    {
        self.members.count()
    }

    /// How many statements all bodies have.
    pub fn stmts(&self) -> u32
        ensures { result ≡ length (stmts_in self.now) }
    {
        stmts_of_classes(self.classes.as_slice()) as u32
    }

    /// The method with a body that is declared under this signature.
    pub fn find_method(&self, sig: &Sig) -> Option<MethodId>
        ensures { (n : MethodId) → (result ≡ Some n) ↔ IsDeclared self.now sig.now n }
    {
        find_method(self.classes.as_slice(), &self.names, &self.members, sig)
    }

    /// The method with this number.
    pub fn method(&self, m: MethodId) -> &Method
        requires { m.0 < length (all_methods self.now) }
        ensures { (c : Class) × IsNumber self.now m c result.now }
    {
        method(self.classes.as_slice(), &self.members, m)
    }

    /// The number of its class's name.
    pub fn owner(&self, m: MethodId) -> ClassId
        requires { m.0 < length (all_methods self.now) }
        ensures { (c : Class) × (k : Method) × IsNumber self.now m c k × At (class_names self.now) result.0 c.name }
    {
        owner(self.classes.as_slice(), &self.members, m)
    }

    /// For each number of a name the method that a call of the signature on its class comes to.
    pub fn resolved(&self, alloc: Global, sig: &Sig) -> Result<Vec<Option<MethodId>>, AllocError>
        ensures count { IfOk result (λ v. length v.items ≡ length (class_names self.now)) }
        ensures exact { IfOk result (λ v. (class : ClassId) (n : MethodId) → At v.items class.0 (Some n) ↔ ((name : List ℕ) × At (class_names self.now) class.0 name × Resolves self.now name sig.now n)) }
    {
        let classes = self.classes.as_slice();
        resolved(alloc, classes, &self.members, &self.links, sig)
    }

    /// The method that a call of the signature on the class comes to.
    pub fn resolve(
        &self,
        alloc: Global,
        class: ClassId,
        sig: &Sig,
    ) -> Result<Option<MethodId>, AllocError>
        ensures { IfOk result (λ found. (n : MethodId) → (found ≡ Some n) ↔ ((name : List ℕ) × At (class_names self.now) class.0 name × Resolves self.now name sig.now n)) }
    {
        let classes = self.classes.as_slice();
        resolve(alloc, classes, &self.members, &self.links, class, sig)
    }
}
