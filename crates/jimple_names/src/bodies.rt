// Bodies: their locals and labels, and then their statements and catch clauses. The resolver stands below; members above.
ghost use Rattle.std.specs.Prelude.{◌≡◌, ◌<◌, ◌+◌, ◌-◌, ◌++◌, ◌∷◌, [], suc, ◌^◌, length, map, flat_map, IfOk, OnOk};
ghost use Rattle.jimple_grammar.specs.declared.raw.RawItem.TheVariants as items;
ghost use Rattle.jimple_grammar.specs.declared.raw.RawDecl.{RawDecl};
ghost use Rattle.jimple_grammar.specs.Fits.{BodyFits, CodeFits, ItemFits};
ghost use Rattle.jimple_names.specs.Texts.{name_of};
ghost use Rattle.jimple_names.specs.Scope.{declared, items_of, stmts_of, labels_from, scope_of};
ghost use Rattle.jimple_names.specs.Tree.{declares, locals_of, stmt_of, body_of};
ghost use Rattle.jimple_names.specs.Faults.{in_turn, declared_fault, item_fault, body_fault};
ghost use Rattle.jimple_names.specs.Named.{Named};
ghost use Rattle.jimple_names.specs.Resolving.{Given, seen};
ghost use Rattle.jimple_names.specs.Walking.{Checked, is_at, label_of, place_behind, number_behind, numbered_local, numbered_label, numbered_fault, front_of, parts_of};

use crate::resolver::Resolver;
use crate::scope::{Label, Names};
use crate::stop::{NameFault, NameStop};
use crate::texts::{name, text, type_of};
use clean_base::Seq;
use jimple_grammar::lexeme::Lexeme;
use jimple_grammar::raw::{RawBody, RawCode, RawDecl, RawItem};
use jimple_tree::{Body, Catch, Local, Stmt};
use std::alloc::{AllocError, Global};

fn local(alloc: Global, bytes: &[u8], decl: &RawDecl, token: Lexeme) -> Result<Local, AllocError>
    ensures { IfOk result (λ l. l ≡ declares bytes.now decl.now token) }
{
    let ty = type_of(alloc, bytes, decl.ty)?;
    let name = name(alloc, bytes, token)?;
    Ok(Local { ty, name })
}

fn declare(
    alloc: Global,
    bytes: &[u8],
    decl: &RawDecl,
    locals: &mut Vec<Local>,
) -> Result<(), AllocError>
    ensures { OnOk result (locals.new.items ≡ locals.old.items ++ locals_of bytes.now decl.now) }
{
    for token in decl.names.as_slice() {
        let local = local(alloc, bytes, decl, *token)?;
        locals.push(local)?;
    }
    Ok(())
}

/// A local for each name of each declaration, in order.
fn locals(alloc: Global, bytes: &[u8], decls: &[RawDecl]) -> Result<Vec<Local>, AllocError>
    ensures { IfOk result (λ ls. ls.items ≡ flat_map (locals_of bytes.now) decls.now) }
{
    let mut locals = Vec::new(alloc);
    for decl in decls {
        declare(alloc, bytes, decl, &mut locals)?;
    }
    Ok(locals)
}

/// The tokens that name the locals, in order.
fn declared(alloc: Global, decls: &[RawDecl]) -> Result<Vec<Lexeme>, AllocError>
    ensures { IfOk result (λ ts. ts.items ≡ flat_map (λ (d : RawDecl). d.names) decls.now) }
{
    let mut tokens = Vec::new(alloc);
    for decl in decls {
        tokens.extend_from_slice(decl.names.as_slice())?;
    }
    Ok(tokens)
}

/// A label before so many statements.
fn label(alloc: Global, bytes: &[u8], token: Lexeme, place: u32) -> Result<Label, AllocError>
    ensures { IfOk result (λ l. l ≡ label_of bytes.now place token) }
{
    let name = name(alloc, bytes, token)?;
    Ok(Label { name, place })
}

/// The labels before the first statement.
fn front_labels(alloc: Global, bytes: &[u8], tokens: &[Lexeme]) -> Result<Vec<Label>, AllocError>
    ensures { IfOk result (λ ls. ls.items ≡ map (label_of bytes.now 0) tokens.now) }
{
    let mut labels = Vec::with_capacity(alloc, tokens.len())?;
    for token in tokens {
        let label = label(alloc, bytes, *token, 0)?;
        labels.push(label)?;
    }
    Ok(labels)
}

/// Adds the item, where it is a label before so many statements. Gives how many stand up to the item and with it.
fn add_label(
    alloc: Global,
    bytes: &[u8],
    item: &RawItem,
    place: u32,
    labels: &mut Vec<Label>,
) -> Result<u32, AllocError>
    requires { place < 2 ^ 32 - 1 }
    ensures place { IfOk result (λ next. next ≡ place_behind place item.now) }
    ensures labels { OnOk result (labels.new.items ≡ labels.old.items ++ labels_from bytes.now place (item.now ∷ [])) }
{
    match item {
        RawItem::Label(token) => {
            let label = label(alloc, bytes, *token, place)?;
            labels.push(label)?;
            Ok(place)
        }
        RawItem::Stmt(_) => Ok(place + 1),
    }
}

/// Adds the labels behind the first statement. Gives how many statements there are with it.
fn later_labels(
    alloc: Global,
    bytes: &[u8],
    rest: &[RawItem],
    labels: &mut Vec<Label>,
) -> Result<u32, AllocError>
    requires { length rest.now < 2 ^ 32 - 1 }
    ensures count { IfOk result (λ n. n ≡ suc (length (stmts_of rest.now))) }
    ensures labels { OnOk result (labels.new.items ≡ labels.old.items ++ labels_from bytes.now 1 rest.now) }
{
    let mut place = 1;
    for item in rest {
        place = add_label(alloc, bytes, item, place, labels)?;
    }
    Ok(place)
}

/// That number was found.
fn is_at(found: Option<u32>, number: u32) -> bool
    ensures { result ≡ is_at found number }
{
    match found {
        Some(first) => first == number,
        None => false,
    }
}

/// Refuses the local of that number, where one of its name stands before it.
fn check_local(
    alloc: Global,
    resolver: &Resolver,
    number: u32,
    token: Lexeme,
) -> Result<(), NameStop>
    ensures { Checked result (numbered_local resolver.now.bytes.now (seen resolver.now.names.locals.now resolver.now.names.labels.now resolver.now.count) number token) }
{
    let found = resolver
        .names
        .local_number(alloc, text(resolver.bytes, token))?;
    if is_at(found, number) {
        Ok(())
    } else {
        Err(NameStop::Fault(NameFault::DoubleName(token.from)))
    }
}

/// Refuses the first local that has the name of one before it.
fn check_locals(alloc: Global, resolver: &Resolver, tokens: &[Lexeme]) -> Result<(), NameStop>
    requires few { length tokens.now < 2 ^ 32 }
    requires names { map (λ l. l.name) resolver.now.names.locals.now ≡ map (name_of resolver.now.bytes.now) tokens.now }
    ensures { Checked result (in_turn (declared_fault resolver.now.bytes.now) [] tokens.now) }
{
    for (number, token) in tokens.iter().enumerate() {
        check_local(alloc, resolver, number as u32, *token)?;
    }
    Ok(())
}

/// Refuses the label of that number, where one of its name stands before it.
fn check_label(
    alloc: Global,
    resolver: &Resolver,
    number: u32,
    token: Lexeme,
) -> Result<(), NameStop>
    ensures { Checked result (numbered_label resolver.now.bytes.now (seen resolver.now.names.locals.now resolver.now.names.labels.now resolver.now.count) number token) }
{
    let found = resolver
        .names
        .label_number(alloc, text(resolver.bytes, token))?;
    if is_at(found, number) {
        Ok(())
    } else {
        Err(NameStop::Fault(NameFault::DoubleName(token.from)))
    }
}

/// Refuses the first label before the first statement that has the name of one before it.
fn check_labels(alloc: Global, resolver: &Resolver, code: &RawCode) -> Result<(), NameStop>
    requires few { length code.now.labels < 2 ^ 32 }
    requires labels { resolver.now.names.labels.now ≡ labels_from resolver.now.bytes.now 0 (items_of code.now) }
    ensures { Checked result (in_turn (item_fault resolver.now.bytes.now (seen resolver.now.names.locals.now resolver.now.names.labels.now resolver.now.count)) [] (map items.Label code.now.labels)) }
{
    let tokens = code.labels.as_slice();
    for (number, token) in tokens.iter().enumerate() {
        check_label(alloc, resolver, number as u32, *token)?;
    }
    Ok(())
}

/// Checks a label behind so many others, or adds a statement. Gives how many labels stand up to the item and with it.
fn add_item(
    alloc: Global,
    resolver: &Resolver,
    item: &RawItem,
    number: u32,
    stmts: &mut Vec<Stmt>,
) -> Result<u32, NameStop>
    requires few { number < 2 ^ 32 - 1 }
    requires given { Given resolver.now.bytes.now (λ P n. ItemFits P n item.now) }
    ensures number { Named (λ x. x) result (number_behind number item.now) (numbered_fault resolver.now.bytes.now (seen resolver.now.names.locals.now resolver.now.names.labels.now resolver.now.count) number item.now) }
    ensures stmts { OnOk result (stmts.new.items ≡ stmts.old.items ++ map (stmt_of resolver.now.bytes.now (seen resolver.now.names.locals.now resolver.now.names.labels.now resolver.now.count)) (stmts_of (item.now ∷ []))) }
{
    match item {
        RawItem::Label(token) => {
            check_label(alloc, resolver, number, *token)?;
            Ok(number + 1)
        }
        RawItem::Stmt(raw) => {
            let stmt = resolver.stmt(alloc, raw)?;
            stmts.push(stmt)?;
            Ok(number)
        }
    }
}

/// Adds the statements behind the first.
fn later_stmts(
    alloc: Global,
    resolver: &Resolver,
    code: &RawCode,
    stmts: &mut Vec<Stmt>,
) -> Result<(), NameStop>
    requires given { Given resolver.now.bytes.now (λ P n. CodeFits P n code.now) }
    requires labels { resolver.now.names.labels.now ≡ labels_from resolver.now.bytes.now 0 (items_of code.now) }
    ensures fault { Checked result (in_turn (item_fault resolver.now.bytes.now (seen resolver.now.names.locals.now resolver.now.names.labels.now resolver.now.count)) (front_of code.now) code.now.rest) }
    ensures stmts { OnOk result (stmts.new.items ≡ stmts.old.items ++ map (stmt_of resolver.now.bytes.now (seen resolver.now.names.locals.now resolver.now.names.labels.now resolver.now.count)) (stmts_of code.now.rest)) }
{
    let mut number = code.labels.as_slice().len() as u32;
    for item in code.rest.as_slice() {
        number = add_item(alloc, resolver, item, number, stmts)?;
    }
    Ok(())
}

/// The statements of the code, where no label has the name of one before it.
fn stmts(alloc: Global, resolver: &Resolver, code: &RawCode) -> Result<Vec<Stmt>, NameStop>
    requires given { Given resolver.now.bytes.now (λ P n. CodeFits P n code.now) }
    requires labels { resolver.now.names.labels.now ≡ labels_from resolver.now.bytes.now 0 (items_of code.now) }
    ensures { Named (λ v. v.items) result (map (stmt_of resolver.now.bytes.now (seen resolver.now.names.locals.now resolver.now.names.labels.now resolver.now.count)) (stmts_of (items_of code.now))) (in_turn (item_fault resolver.now.bytes.now (seen resolver.now.names.locals.now resolver.now.names.labels.now resolver.now.count)) [] (items_of code.now)) }
{
    check_labels(alloc, resolver, code)?;
    let front = resolver.stmt(alloc, &code.front)?;
    let mut stmts = Vec::new(alloc);
    stmts.push(front)?;
    later_stmts(alloc, resolver, code, &mut stmts)?;
    Ok(stmts)
}

/// What stands behind the declarations of a body.
#[derive(Drop)]
pub struct Parts {
    pub stmts: Seq<Stmt>,
    pub catches: Seq<Catch>,
}

/// The statements and catch clauses, over these locals, these labels and so many statements.
fn inside(
    alloc: Global,
    bytes: &[u8],
    raw: &RawBody,
    locals: &[Local],
    labels: &[Label],
    count: u32,
) -> Result<Parts, NameStop>
    requires given { Given bytes.now (λ P n. BodyFits P n raw.now) }
    requires seen { seen locals.now labels.now count ≡ scope_of bytes.now raw.now }
    ensures { Named (λ i. i) result (parts_of bytes.now raw.now) (body_fault bytes.now raw.now) }
{
    let names = Names::new(alloc, locals, labels)?;
    let resolver = Resolver {
        bytes,
        names,
        count,
    };
    let tokens = declared(alloc, raw.decls.as_slice())?;
    check_locals(alloc, &resolver, tokens.as_slice())?;
    let stmts = stmts(alloc, &resolver, &raw.code)?;
    let catches = resolver.catches(alloc, raw.catches.as_slice())?;
    Ok(Parts {
        stmts: Seq::from_vec(stmts),
        catches: Seq::from_vec(catches),
    })
}

/// The body of a raw body.
pub fn body(alloc: Global, bytes: &[u8], raw: &RawBody) -> Result<Body, NameStop>
    requires { Given bytes.now (λ P n. BodyFits P n raw.now) }
    ensures { Named (λ b. b) result (body_of bytes.now raw.now) (body_fault bytes.now raw.now) }
{
    let locals = locals(alloc, bytes, raw.decls.as_slice())?;
    let mut labels = front_labels(alloc, bytes, raw.code.labels.as_slice())?;
    let count = later_labels(alloc, bytes, raw.code.rest.as_slice(), &mut labels)?;
    let inside = inside(
        alloc,
        bytes,
        raw,
        locals.as_slice(),
        labels.as_slice(),
        count,
    )?;
    Ok(Body {
        locals: Seq::from_vec(locals),
        stmts: inside.stmts,
        catches: inside.catches,
    })
}
