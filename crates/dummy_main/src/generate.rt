// The class whose one method makes the components and calls them (docs/FORMATS.md, "The generated main method"). Blocks
// stand below; where programs are entered and the top call above.
ghost use Rattle.std.specs.Prelude.{◌≡◌, ◌<◌, ◌≤◌, ◌+◌, ◌++◌, OnOk, IfOk, [], ◌∷◌, length, codes, decimal};
ghost use Rattle.jimple_tree.specs.WellFormed.{IsWellFormed};
ghost use Rattle.dummy_main.specs.Layout.{body_of, main_of, main_sig, class_of, statements, choices, blocks, local_at, locals_from, first};
ghost use Rattle.dummy_main.specs.Listing.{most_components};
ghost use Rattle.dummy_main.specs.Means.{IsMainOf};

use crate::Component;
use crate::blocks::{choice_of, push_block, size_of};
use crate::callback::TypeName;
use crate::parts::{literal_of, make_type, name_of, none, one};
use clean_base::{LocalId, Name, Seq};
use itoa::Buffer;
use jimple_tree::{Body, Class, JType, Local, Method, Place, Rhs, Sig, Stmt};
use std::alloc::{AllocError, Global};

fn push_choices(
    code: &mut Vec<Stmt>,
    alloc: Global,
    first: u32,
    components: &[Component],
) -> Result<(), AllocError>
    requires few { length components.now ≤ most_components }
    requires room { first ≤ most_components + 2 }
    ensures { OnOk result (code.new.items ≡ code.old.items ++ choices first components.now) }
{
    let mut start = first;
    for component in components {
        code.push(choice_of(alloc, start)?)?;
        start += size_of(component.kind);
    }
    Ok(())
}

fn push_blocks(
    code: &mut Vec<Stmt>,
    alloc: Global,
    components: &[Component],
) -> Result<(), AllocError>
    requires few { length components.now ≤ most_components }
    requires room { length code.old.items ≤ most_components + 2 }
    ensures { OnOk result (code.new.items ≡ code.old.items ++ blocks 0 (length code.old.items) components.now) }
{
    let mut number = 0;
    for component in components {
        push_block(code, alloc, number, component)?;
        number += 1;
    }
    Ok(())
}

fn first_of(alloc: Global) -> Result<Stmt, AllocError>
    ensures { IfOk result (λ made. made ≡ first) }
{
    Ok(Stmt::Assign {
        place: Place::Local(LocalId(0)),
        rhs: Rhs::Use(literal_of(alloc, "0")?),
    })
}

fn make_statements(alloc: Global, components: &[Component]) -> Result<Seq<Stmt>, AllocError>
    requires { length components.now ≤ most_components }
    ensures { IfOk result (λ made. made ≡ statements components.now) }
{
    let mut code = Vec::new(alloc);
    let start = components.len() as u32 + 2;
    code.push(first_of(alloc)?)?;
    push_choices(&mut code, alloc, start, components)?;
    code.push(Stmt::Return(None))?;
    push_blocks(&mut code, alloc, components)?;
    Ok(Seq::from_vec(code))
}

fn receiver_name(alloc: Global, number: u16) -> Result<Name, AllocError>
    ensures { IfOk result (λ name. name ≡ codes "r" ++ decimal number) }
{
    let mut buffer = Buffer::new();
    let mut name = Vec::from_slice(alloc, b"r")?;
    name.extend_from_slice(buffer.format(number).as_bytes())?;
    Ok(Name::from_vec(name))
}

fn make_local(alloc: Global, number: u16, class: &Name) -> Result<Local, AllocError>
    ensures { IfOk result (λ local. local ≡ local_at number class.now) }
{
    Ok(Local {
        ty: JType {
            base: class.copy(alloc)?,
            dims: 0,
        },
        name: receiver_name(alloc, number)?,
    })
}

fn push_locals(
    locals: &mut Vec<Local>,
    alloc: Global,
    components: &[Component],
) -> Result<(), AllocError>
    requires { length components.now ≤ most_components }
    ensures { OnOk result (locals.new.items ≡ locals.old.items ++ locals_from 0 components.now) }
{
    let mut number = 0;
    for component in components {
        locals.push(make_local(alloc, number, &component.name)?)?;
        number += 1;
    }
    Ok(())
}

fn make_body(alloc: Global, components: &[Component]) -> Result<Body, AllocError>
    requires { length components.now ≤ most_components }
    ensures { IfOk result (λ body. body ≡ body_of components.now) }
{
    let mut locals = Vec::new(alloc);
    locals.push(Local {
        ty: make_type(alloc, TypeName::Int)?,
        name: name_of(alloc, "i0")?,
    })?;
    push_locals(&mut locals, alloc, components)?;
    Ok(Body {
        locals: Seq::from_vec(locals),
        stmts: make_statements(alloc, components)?,
        catches: none(alloc),
    })
}

fn static_public(alloc: Global) -> Result<Seq<Name>, AllocError>
    ensures { IfOk result (λ words. words ≡ codes "public" ∷ codes "static" ∷ []) }
{
    let mut words = Vec::new(alloc);
    words.push(name_of(alloc, "public")?)?;
    words.push(name_of(alloc, "static")?)?;
    Ok(Seq::from_vec(words))
}

fn make_main(alloc: Global, components: &[Component]) -> Result<Method, AllocError>
    requires { length components.now ≤ most_components }
    ensures { IfOk result (λ main. main ≡ main_of components.now) }
{
    Ok(Method {
        modifiers: static_public(alloc)?,
        result: make_type(alloc, TypeName::Void)?,
        name: name_of(alloc, "dummyMainMethod")?,
        params: none(alloc),
        throws: none(alloc),
        body: Some(make_body(alloc, components)?),
    })
}

fn make_class(alloc: Global, components: &[Component]) -> Result<Class, AllocError>
    requires { length components.now ≤ most_components }
    ensures { IfOk result (λ class. class ≡ class_of components.now) }
{
    Ok(Class {
        modifiers: one(alloc, name_of(alloc, "public")?)?,
        is_interface: false,
        name: name_of(alloc, "dummyMainClass")?,
        extends: one(alloc, name_of(alloc, "java.lang.Object")?)?,
        implements: none(alloc),
        fields: none(alloc),
        methods: one(alloc, make_main(alloc, components)?)?,
    })
}

/// The signature of the generated class's method.
pub fn main_sig(alloc: Global) -> Result<Sig, AllocError>
    ensures { IfOk result (λ sig. sig ≡ main_sig) }
{
    Ok(Sig {
        class: name_of(alloc, "dummyMainClass")?,
        result: make_type(alloc, TypeName::Void)?,
        name: name_of(alloc, "dummyMainMethod")?,
        params: none(alloc),
    })
}

/// The generated class: along the runs of its one method the components are made and called exactly as their lifecycles
/// allow, one after another (docs/LIFECYCLE.md).
pub fn make(alloc: Global, components: &[Component]) -> Result<Class, AllocError>
    requires { length components.now ≤ most_components }
    ensures means { IfOk result (λ class. IsMainOf components.now class) }
    ensures well_formed { IfOk result (λ class. IsWellFormed class) }
    ensures laid_out { IfOk result (λ class. class ≡ class_of components.now) }
{
    make_class(alloc, components)
}
