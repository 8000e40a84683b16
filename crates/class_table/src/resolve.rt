// Which method a call of a class and a signature comes to (docs/FLOW-RULES.md, "Resolution"). The methods of classes by number
// and by signature, the graphs of the hierarchy and what stands first along them stand below; the table above.
ghost use Rattle.std.specs.Prelude.{◌≡◌, ◌↔◌, ◌<◌, ◌∷◌, ℕ, List, [], length, replicate, All, IfOk, IsTrue, None, Some};
ghost use Rattle.clean_base.specs.Lists.{At};
ghost use Rattle.clean_base.specs.declared.ids.ClassId.{ClassId};
ghost use Rattle.clean_base.specs.declared.ids.MethodId.{MethodId};
ghost use Rattle.jimple_tree.specs.WellFormed.{IsWellFormed};
ghost use Rattle.class_table.specs.Faults.{IsTable};
ghost use Rattle.class_table.specs.Firsts.{IsFirst, AreEither, AreFound, AreOwn};
ghost use Rattle.class_table.specs.Hierarchy.{class_names};
ghost use Rattle.class_table.specs.Kept.{HasLinks};
ghost use Rattle.class_table.specs.Members.{AreMembers, HasPlace, IsNumberAt};
ghost use Rattle.class_table.specs.Resolving.{MayBeCalled, Resolves};
ghost use Rattle.class_table.specs.declared.members.Place.{Place};

use crate::firsts::{along, next};
use crate::index::find;
use crate::links::Links;
use crate::members::{Members, Place};
use crate::modifiers::is_abstract;
use clean_base::{ClassId, MethodId};
use jimple_tree::{Class, Method, Sig};
use std::alloc::{AllocError, Global};

fn may_be_called(method: &Method) -> bool
    ensures { IsTrue result ↔ MayBeCalled method.now }
{
    method.body.is_some() || !is_abstract(method.modifiers.as_slice())
}

// Where the method of the signature that may be called stands in the class whose name has this number.
fn callable(classes: &[Class], members: &Members, number: usize, sig: &Sig) -> Option<Place>
    requires formed { All IsWellFormed classes.now }
    requires table { IsTable classes.now }
    requires members { AreMembers classes.now members.now }
    requires number { number < length (class_names classes.now) }
    ensures { IsFirst classes.now sig.now (number ∷ []) result }
{
    if classes.len() <= number {
        return None;
    }
    let class = &classes[number];
    let Some(method) = find(class, &members.classes[number].index, sig) else {
        return None;
    };
    if !may_be_called(&class.methods.as_slice()[method]) {
        return None;
    }
    Some(Place {
        class: number,
        method,
    })
}

// No place for each of so many names.
fn no_places(alloc: Global, count: usize) -> Result<Vec<Option<Place>>, AllocError>
    ensures { IfOk result (λ v. v.items ≡ replicate count None) }
{
    vec![in alloc; None; count]
}

// For each name where its own class has it.
fn own_places(
    alloc: Global,
    classes: &[Class],
    members: &Members,
    count: usize,
    sig: &Sig,
) -> Result<Vec<Option<Place>>, AllocError>
    requires formed { All IsWellFormed classes.now }
    requires table { IsTable classes.now }
    requires members { AreMembers classes.now members.now }
    requires count { count ≡ length (class_names classes.now) }
    ensures { IfOk result (λ v. AreOwn classes.now sig.now v.items) }
{
    let mut places = no_places(alloc, count)?;
    // Only a class that has a method of the name may have the one that is looked for.
    for method in members.holders.names.places(&sig.name) {
        let class = members.holders.owners[*method];
        places[class] = callable(classes, members, class, sig);
    }
    Ok(places)
}

// The first places, and where there is none the others.
fn either(first: Vec<Option<Place>>, others: &[Option<Place>]) -> Vec<Option<Place>>
    requires { length others.now ≡ length first.items }
    ensures { AreEither first.items others.now result.items }
{
    let mut places = first;
    for at in 0..places.len() {
        if places[at].is_none() {
            places[at] = others[at];
        }
    }
    places
}

// For each name where the method stands that a call of the signature on its class finds: in the class and its superclasses, or
// else in the interfaces of these.
fn found(
    alloc: Global,
    classes: &[Class],
    members: &Members,
    links: &Links,
    sig: &Sig,
) -> Result<Vec<Option<Place>>, AllocError>
    requires formed { All IsWellFormed classes.now }
    requires table { IsTable classes.now }
    requires members { AreMembers classes.now members.now }
    requires links { HasLinks classes.now links.now }
    ensures { IfOk result (λ v. AreFound classes.now sig.now v.items) }
{
    let superclasses = links.superclasses.as_slice();
    let interfaces = links.interfaces.as_slice();
    let order = links.order.as_slice();
    let own = own_places(alloc, classes, members, superclasses.len(), sig)?;
    let up = along(alloc, superclasses, order, own.as_slice())?;
    let deep = along(alloc, interfaces, order, own.as_slice())?;
    let across = next(alloc, interfaces, deep.as_slice())?;
    let aside = along(alloc, superclasses, order, across.as_slice())?;
    Ok(either(up, aside.as_slice()))
}

// The number of the method that stands there.
fn number_at(members: &Members, place: Option<Place>) -> Option<MethodId>
    requires { (x : Place) → place ≡ Some x → HasPlace members.now x }
    ensures none { place ≡ None → result ≡ None }
    ensures some { (x : Place) → place ≡ Some x → IsNumberAt members.now x result }
{
    match place {
        Some(place) => members.number(place),
        None => None,
    }
}

/// For each name the method that a call of the signature on its class comes to.
pub fn resolved(
    alloc: Global,
    classes: &[Class],
    members: &Members,
    links: &Links,
    sig: &Sig,
) -> Result<Vec<Option<MethodId>>, AllocError>
    requires formed { All IsWellFormed classes.now }
    requires table { IsTable classes.now }
    requires members { AreMembers classes.now members.now }
    requires links { HasLinks classes.now links.now }
    ensures count { IfOk result (λ v. length v.items ≡ length (class_names classes.now)) }
    ensures exact { IfOk result (λ v. (class : ClassId) (n : MethodId) → At v.items class.0 (Some n) ↔ ((name : List ℕ) × At (class_names classes.now) class.0 name × Resolves classes.now name sig.now n)) }
{
    let places = found(alloc, classes, members, links, sig)?;
    let mut methods = Vec::new(alloc);
    for place in places.as_slice() {
        methods.push(number_at(members, *place))?;
    }
    Ok(methods)
}

/// The method that a call of the signature on the class comes to.
pub fn resolve(
    alloc: Global,
    classes: &[Class],
    members: &Members,
    links: &Links,
    class: ClassId,
    sig: &Sig,
) -> Result<Option<MethodId>, AllocError>
    requires formed { All IsWellFormed classes.now }
    requires table { IsTable classes.now }
    requires members { AreMembers classes.now members.now }
    requires links { HasLinks classes.now links.now }
    ensures { IfOk result (λ found. (n : MethodId) → (found ≡ Some n) ↔ ((name : List ℕ) × At (class_names classes.now) class.0 name × Resolves classes.now name sig.now n)) }
{
    let number = class.0 as usize;
    if links.headings.len() <= number {
        return Ok(None);
    }
    if let Some(place) = callable(classes, members, number, sig) {
        return Ok(members.number(place));
    }
    let methods = resolved(alloc, classes, members, links, sig)?;
    Ok(methods[number])
}
