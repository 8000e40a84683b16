// Members: what tells them apart, fields and methods. Bodies stand below; classes above.
ghost use Rattle.std.specs.Prelude.{◌≡◌, ◌++◌, ◌∷◌, [], true, cond, map, All, IfOk, OnOk};
ghost use Rattle.std.specs.HashSet.{contains};
ghost use Rattle.std.specs.List.{filter_map};
ghost use Rattle.jimple_grammar.specs.Fits.{MemberFits, MethodFits, OptionalBodyFits};
ghost use Rattle.jimple_names.specs.declared.members.Key.{Key};
ghost use Rattle.jimple_names.specs.Texts.{name_of};
ghost use Rattle.jimple_names.specs.Tree.{field_of, method_of, field_in, method_in};
ghost use Rattle.jimple_names.specs.Faults.{in_turn, double, optional_body_fault, member_fault};
ghost use Rattle.jimple_names.specs.Named.{Named};
ghost use Rattle.jimple_names.specs.Resolving.{Given};
ghost use Rattle.jimple_names.specs.Walking.{Checked};
ghost use Rattle.jimple_names.specs.Keys.{same_key, type_key, head_in, is_method, types_in, inner_fault, members_of, optional_body_of};

use crate::bodies::body;
use crate::stop::{NameFault, NameStop};
use crate::texts::{name, names, type_of, types_of};
use clean_base::{Name, Seq};
use jimple_grammar::lexeme::Lexeme;
use jimple_grammar::raw::{RawBody, RawHead, RawMember, RawMethod, RawType};
use jimple_tree::{Body, Field, Method};
use std::alloc::{AllocError, Global};
use std::collections::HashSet;

/// A type, as a part of a key.
#[derive(Drop, PartialEq, Eq, Hash)]
pub struct TypeKey {
    pub base: Name,
    pub dims: u64,
}

/// What tells a member apart: its name, its type or result, and its parameters behind it.
#[derive(Drop, PartialEq, Eq, Hash)]
pub struct Key {
    pub is_method: bool,
    pub name: Name,
    pub types: Vec<TypeKey>,
}

fn type_key(alloc: Global, bytes: &[u8], ty: RawType) -> Result<TypeKey, AllocError>
    ensures { IfOk result (λ k. k ≡ type_key bytes.now ty) }
{
    let base = name(alloc, bytes, ty.base)?;
    Ok(TypeKey {
        base,
        dims: ty.dims,
    })
}

fn type_keys(
    alloc: Global,
    bytes: &[u8],
    first: RawType,
    params: &[RawType],
) -> Result<Vec<TypeKey>, AllocError>
    ensures { IfOk result (λ ks. ks.items ≡ type_key bytes.now first ∷ map (type_key bytes.now) params.now) }
{
    let mut keys = Vec::new(alloc);
    keys.push(type_key(alloc, bytes, first)?)?;
    for ty in params {
        keys.push(type_key(alloc, bytes, *ty)?)?;
    }
    Ok(keys)
}

/// The front of a member.
fn head(raw: &RawMember) -> &RawHead
    ensures { result.now ≡ head_in raw.now }
{
    match raw {
        RawMember::Field(head) => head,
        RawMember::Method(head, _) => head,
    }
}

fn is_method(raw: &RawMember) -> bool
    ensures { result ≡ is_method raw.now }
{
    match raw {
        RawMember::Field(_) => false,
        RawMember::Method(_, _) => true,
    }
}

/// The types of a member: its type or result, and its parameters.
fn types(alloc: Global, bytes: &[u8], raw: &RawMember) -> Result<Vec<TypeKey>, AllocError>
    ensures { IfOk result (λ ks. ks.items ≡ types_in bytes.now raw.now) }
{
    match raw {
        RawMember::Field(head) => type_keys(alloc, bytes, head.ty, &[]),
        RawMember::Method(head, method) => {
            type_keys(alloc, bytes, head.ty, method.params.as_slice())
        }
    }
}

fn key_of(alloc: Global, bytes: &[u8], raw: &RawMember) -> Result<Key, AllocError>
    ensures method { IfOk result (λ k. k.is_method ≡ is_method raw.now) }
    ensures name { IfOk result (λ k. k.name ≡ name_of bytes.now (head_in raw.now).name) }
    ensures types { IfOk result (λ k. k.types.items ≡ types_in bytes.now raw.now) }
{
    let name = name(alloc, bytes, head(raw).name)?;
    let types = types(alloc, bytes, raw)?;
    Ok(Key {
        is_method: is_method(raw),
        name,
        types,
    })
}

/// Adds the key, where it is new. The token names the member.
fn add_key(seen: &mut HashSet<Key>, key: Key, token: Lexeme) -> Result<(), NameStop>
    ensures fault { Checked result (double (contains same_key seen.old key) token) }
    ensures more { OnOk result ((q : Key) → contains same_key seen.new q ≡ cond (same_key key q) true (contains same_key seen.old q)) }
{
    if seen.insert(key)? {
        Ok(())
    } else {
        Err(NameStop::Fault(NameFault::DoubleName(token.from)))
    }
}

fn field_of(alloc: Global, bytes: &[u8], raw: &RawHead) -> Result<Field, AllocError>
    ensures { IfOk result (λ f. f ≡ field_of bytes.now raw.now) }
{
    let modifiers = names(alloc, bytes, raw.modifiers.as_slice())?;
    let ty = type_of(alloc, bytes, raw.ty)?;
    let name = name(alloc, bytes, raw.name)?;
    Ok(Field {
        modifiers,
        ty,
        name,
    })
}

fn optional_body(
    alloc: Global,
    bytes: &[u8],
    raw: &Option<RawBody>,
) -> Result<Option<Body>, NameStop>
    requires { Given bytes.now (λ P n. OptionalBodyFits P n raw.now) }
    ensures { Named (λ b. b) result (optional_body_of bytes.now raw.now) (optional_body_fault bytes.now raw.now) }
{
    match raw {
        None => Ok(None),
        Some(raw) => Ok(Some(body(alloc, bytes, raw)?)),
    }
}

fn method_of(
    alloc: Global,
    bytes: &[u8],
    head: &RawHead,
    raw: &RawMethod,
) -> Result<Method, NameStop>
    requires { Given bytes.now (λ P n. MethodFits P n raw.now) }
    ensures { Named (λ m. m) result (method_of bytes.now head.now raw.now) (optional_body_fault bytes.now raw.now.body) }
{
    let modifiers = names(alloc, bytes, head.modifiers.as_slice())?;
    let result = type_of(alloc, bytes, head.ty)?;
    let name = name(alloc, bytes, head.name)?;
    let params = types_of(alloc, bytes, raw.params.as_slice())?;
    let throws = names(alloc, bytes, raw.throws.as_slice())?;
    let body = optional_body(alloc, bytes, &raw.body)?;
    Ok(Method {
        modifiers,
        result,
        name,
        params,
        throws,
        body,
    })
}

/// Adds the member to the fields or to the methods.
fn add_member(
    alloc: Global,
    bytes: &[u8],
    raw: &RawMember,
    fields: &mut Vec<Field>,
    methods: &mut Vec<Method>,
) -> Result<(), NameStop>
    requires { Given bytes.now (λ P n. MemberFits P n raw.now) }
    ensures fault { Checked result (inner_fault bytes.now raw.now) }
    ensures fields { OnOk result (fields.new.items ≡ fields.old.items ++ filter_map (field_in bytes.now) (raw.now ∷ [])) }
    ensures methods { OnOk result (methods.new.items ≡ methods.old.items ++ filter_map (method_in bytes.now) (raw.now ∷ [])) }
{
    match raw {
        RawMember::Field(head) => {
            let field = field_of(alloc, bytes, head)?;
            fields.push(field)?;
            Ok(())
        }
        RawMember::Method(head, raw) => {
            let method = method_of(alloc, bytes, head, raw)?;
            methods.push(method)?;
            Ok(())
        }
    }
}

/// The fields and the methods of a class, each in order.
#[derive(Drop)]
pub struct Members {
    pub fields: Seq<Field>,
    pub methods: Seq<Method>,
}

/// The members of a class, where no two are one and the same.
pub fn name_members(alloc: Global, bytes: &[u8], raw: &[RawMember]) -> Result<Members, NameStop>
    requires { Given bytes.now (λ P n. All (MemberFits P n) raw.now) }
    ensures { Named (λ m. m) result (members_of bytes.now raw.now) (in_turn (member_fault bytes.now) [] raw.now) }
{
    let mut seen = HashSet::new(alloc);
    let mut fields = Vec::new(alloc);
    let mut methods = Vec::new(alloc);
    for member in raw {
        let key = key_of(alloc, bytes, member)?;
        add_key(&mut seen, key, head(member).name)?;
        add_member(alloc, bytes, member, &mut fields, &mut methods)?;
    }
    Ok(Members {
        fields: Seq::from_vec(fields),
        methods: Seq::from_vec(methods),
    })
}
