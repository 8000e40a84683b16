// The methods of all classes by number and by signature (docs/FLOW-RULES.md, "Classes"). The methods of one class by name
// stand below; the resolution of calls above.
ghost use Rattle.std.specs.Prelude.{◌≡◌, ◌↔◌, ◌<◌, ◌≤◌, ◌+◌, ◌++◌, ◌∷◌, List, [], cond, is_some, length, take, All, IfOk, OnOk, None, Some};
ghost use Rattle.clean_base.specs.Limits.{most_methods};
ghost use Rattle.clean_base.specs.Lists.{At};
ghost use Rattle.clean_base.specs.declared.ids.MethodId.{MethodId};
ghost use Rattle.jimple_tree.specs.WellFormed.{IsWellFormed};
ghost use Rattle.jimple_tree.specs.declared.tree.Class.{Class};
ghost use Rattle.jimple_tree.specs.declared.tree.Method.{Method};
ghost use Rattle.class_table.specs.Faults.{IsTable};
ghost use Rattle.class_table.specs.Hierarchy.{class_names};
ghost use Rattle.class_table.specs.Methods.{all_methods, IsDeclared, IsNumber};
ghost use Rattle.class_table.specs.Members.{AreHolders, AreMembers, AreNumbers, ArePlaces, HasPlace, IsMember, IsNumberAt, method_id, method_names};

use crate::index::{find, index_of};
use crate::names::number_of;
use clean_base::{ClassId, MethodId, Name};
use indexmap::IndexSet;
use jimple_tree::{Body, Class, Method, Sig};
use name_index::NameIndex;
use std::alloc::{AllocError, Global};

/// Where a method stands: the place of its class among the classes, and its own in that class.
#[derive(Clone, Copy, Debug)]
pub struct Place {
    pub class: usize,
    pub method: usize,
}

/// The methods of a class: by name, and the number of each that has a body.
#[derive(Debug, Drop)]
pub struct ClassMembers {
    pub index: NameIndex,
    pub numbers: Vec<Option<MethodId>>,
}

/// All methods by name, one class behind the other, and of each the place of its class.
#[derive(Debug, Drop)]
pub struct Holders {
    pub names: NameIndex,
    pub owners: Vec<usize>,
}

/// The methods of classes: those of each class, the place of each that has a body, and which classes have one of a name.
#[derive(Debug, Drop)]
pub struct Members {
    pub classes: Vec<ClassMembers>,
    pub places: Vec<Place>,
    pub holders: Holders,
}

// Adds the number of a method at this place, and where it has a body its place.
fn add_method(
    body: &Option<Body>,
    place: Place,
    numbers: &mut Vec<Option<MethodId>>,
    places: &mut Vec<Place>,
) -> Result<(), AllocError>
    requires { length places.old.items ≤ most_methods }
    ensures numbers { OnOk result (numbers.new.items ≡ numbers.old.items ++ cond (is_some body.now) (Some (method_id (length places.old.items))) None ∷ []) }
    ensures places { OnOk result (places.new.items ≡ places.old.items ++ cond (is_some body.now) (place ∷ []) []) }
{
    if body.is_none() {
        numbers.push(None)?;
        return Ok(());
    }
    numbers.push(Some(MethodId(places.len() as u32)))?;
    places.push(place)?;
    Ok(())
}

// Numbers the methods of a class with a body behind those of the classes before it.
fn number_methods(
    alloc: Global,
    classes: &[Class],
    at: usize,
    class: &Class,
    places: &mut Vec<Place>,
) -> Result<Vec<Option<MethodId>>, AllocError>
    requires few { length (all_methods classes.now) ≤ most_methods }
    requires class { At classes.now at class.now }
    requires places { ArePlaces classes.now (length (all_methods (take at classes.now))) places.old.items }
    ensures numbers { IfOk result (λ numbers. AreNumbers classes.now class.now numbers.items) }
    ensures places { OnOk result (ArePlaces classes.now (length (all_methods (take (at + 1) classes.now))) places.new.items) }
{
    let mut numbers = Vec::new(alloc);
    for (method, here) in class.methods.as_slice().iter().enumerate() {
        let place = Place { class: at, method };
        add_method(&here.body, place, &mut numbers, places)?;
    }
    Ok(numbers)
}

// What belongs to one of the classes.
fn members_of(
    alloc: Global,
    classes: &[Class],
    at: usize,
    places: &mut Vec<Place>,
) -> Result<ClassMembers, AllocError>
    requires few { length (all_methods classes.now) ≤ most_methods }
    requires class { at < length classes.now }
    requires places { ArePlaces classes.now (length (all_methods (take at classes.now))) places.old.items }
    ensures own { IfOk result (λ own. (c : Class) → At classes.now at c → IsMember classes.now c own) }
    ensures places { OnOk result (ArePlaces classes.now (length (all_methods (take (at + 1) classes.now))) places.new.items) }
{
    let class = &classes[at];
    let index = index_of(alloc, class.methods.as_slice())?;
    let numbers = number_methods(alloc, classes, at, class, places)?;
    Ok(ClassMembers { index, numbers })
}

impl Holders {
    fn new(alloc: Global) -> Holders
        ensures { (cs : List Class) → AreHolders cs 0 result }
    {
        Holders {
            names: NameIndex::new(alloc),
            owners: Vec::new(alloc),
        }
    }

    // Adds the methods of the next class.
    fn add(&mut self, alloc: Global, classes: &[Class], at: usize) -> Result<(), AllocError>
        requires class { at < length classes.now }
        requires before { AreHolders classes.now (length (method_names (take at classes.now))) self.old }
        ensures { OnOk result (AreHolders classes.now (length (method_names (take (at + 1) classes.now))) self.new) }
    {
        for method in classes[at].methods.as_slice() {
            self.names.add(alloc, &method.name, self.owners.len())?;
            self.owners.push(at)?;
        }
        Ok(())
    }
}

// Which classes have methods of a name.
fn holders_of(alloc: Global, classes: &[Class]) -> Result<Holders, AllocError>
    ensures { IfOk result (AreHolders classes.now (length (method_names classes.now))) }
{
    let mut holders = Holders::new(alloc);
    for at in 0..classes.len() {
        holders.add(alloc, classes, at)?;
    }
    Ok(holders)
}

impl Members {
    /// The methods of these classes.
    pub fn new(alloc: Global, classes: &[Class]) -> Result<Members, AllocError>
        requires { length (all_methods classes.now) ≤ most_methods }
        ensures { IfOk result (λ members. AreMembers classes.now members) }
    {
        let mut owns = Vec::new(alloc);
        let mut places = Vec::new(alloc);
        for at in 0..classes.len() {
            owns.push(members_of(alloc, classes, at, &mut places)?)?;
        }
        Ok(Members {
            classes: owns,
            places,
            holders: holders_of(alloc, classes)?,
        })
    }

    /// How many methods have a body.
    pub fn count(&self) -> u32
        requires { length self.now.places.items ≤ most_methods }
        ensures { result ≡ length self.now.places.items }
    {
        self.places.len() as u32
    }

    /// The number of the method that stands there.
    pub fn number(&self, place: Place) -> Option<MethodId>
        requires { HasPlace self.now place }
        ensures { IsNumberAt self.now place result }
    {
        self.classes[place.class].numbers[place.method]
    }
}

/// The method with a body that is declared under this signature.
pub fn find_method(
    classes: &[Class],
    names: &IndexSet<Name>,
    members: &Members,
    sig: &Sig,
) -> Option<MethodId>
    requires formed { All IsWellFormed classes.now }
    requires table { IsTable classes.now }
    requires names { names.now.keys ≡ class_names classes.now }
    requires members { AreMembers classes.now members.now }
    ensures { (n : MethodId) → (result ≡ Some n) ↔ IsDeclared classes.now sig.now n }
{
    let Some(number) = number_of(names, &sig.class) else {
        return None;
    };
    let class = number as usize;
    if classes.len() <= class {
        return None;
    }
    let Some(method) = find(&classes[class], &members.classes[class].index, sig) else {
        return None;
    };
    members.number(Place { class, method })
}

/// The method with this number.
pub fn method<'a>(classes: &'a [Class], members: &Members, m: MethodId) -> &'a Method
    requires members { AreMembers classes.now members.now }
    requires number { m.0 < length (all_methods classes.now) }
    ensures { (c : Class) × IsNumber classes.now m c result.now }
{
    let place = members.places[m.0 as usize];
    &classes[place.class].methods.as_slice()[place.method]
}

/// The number of its class's name.
pub fn owner(classes: &[Class], members: &Members, m: MethodId) -> ClassId
    requires table { IsTable classes.now }
    requires members { AreMembers classes.now members.now }
    requires number { m.0 < length (all_methods classes.now) }
    ensures { (c : Class) × (k : Method) × IsNumber classes.now m c k × At (class_names classes.now) result.0 c.name }
{
    ClassId(members.places[m.0 as usize].class as u32)
}
