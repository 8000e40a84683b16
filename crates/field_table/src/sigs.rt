// Field signatures, each once, in the order of adding. A look-up takes no memory. Names by number stand below; the fields of
// classes and references above.
ghost use Rattle.std.specs.Prelude.{◌≡◌, ◌<◌, ◌++◌, ◌∷◌, [], ℕ, List, length, Contains, IfOk, MatchOption, OnErr, OnOk};
ghost use Rattle.indexmap.specs.IndexSet.{insert_key};
ghost use Rattle.clean_base.specs.Lists.{At, IsDistinct};
ghost use Rattle.field_table.specs.Fields.{same_sig, signature};
ghost use Rattle.field_table.specs.Sigs.{IsKey};
ghost use Rattle.field_table.specs.declared.key.Key.{Key};

use crate::key::{Key, add_name, place_of};
use clean_base::Name;
use indexmap::IndexSet;
use jimple_tree::{FieldSig, JType};
use std::alloc::{AllocError, Global};
use std::marker::Model;

/// A set of field signatures.
#[derive(Drop)]
pub struct Sigs {
    names: IndexSet<Name>,
    keys: IndexSet<Key>,
    items: Vec<FieldSig>,
}

impl Model for Sigs {
    ghost use Rattle.std.specs.Prelude.{List};
    ghost use Rattle.jimple_tree.specs.declared.tree.FieldSig.{FieldSig};
    ghost use Rattle.field_table.specs.Sigs.{AreSigs};

    ghost Value = { List FieldSig };

    ghost view = { λ s. s.items.items };

    ghost invariant = { λ s. AreSigs s.names.keys s.keys.keys s.items.items };
}

// The key of a signature whose names are all among these.
fn key_of(names: &IndexSet<Name>, class: &Name, ty: &JType, name: &Name) -> Option<Key>
    ensures { MatchOption result ((key : Key) → IsKey names.now.keys key (signature class.now ty.now name.now) → ⊥) (λ key. IsKey names.now.keys key (signature class.now ty.now name.now)) }
{
    let Some(name) = place_of(names, name) else {
        return None;
    };
    let Some(base) = place_of(names, &ty.base) else {
        return None;
    };
    let Some(class) = place_of(names, class) else {
        return None;
    };
    Some(Key {
        class,
        base,
        dims: ty.dims,
        name,
    })
}

// The key of a signature, whose names are added where they aren't there yet.
fn add_key(
    alloc: Global,
    names: &mut IndexSet<Name>,
    class: &Name,
    ty: &JType,
    name: &Name,
) -> Result<Key, AllocError>
    requires { IsDistinct names.old.keys }
    ensures distinct { IsDistinct names.new.keys }
    ensures kept { (more : List (List ℕ)) × (names.new.keys ≡ names.old.keys ++ more) }
    ensures key { IfOk result (λ key. IsKey names.new.keys key (signature class.now ty.now name.now)) }
{
    let class = add_name(alloc, names, class)?;
    let base = add_name(alloc, names, &ty.base)?;
    let name = add_name(alloc, names, name)?;
    Ok(Key {
        class,
        base,
        dims: ty.dims,
        name,
    })
}

// A signature of these parts.
fn signed(alloc: Global, class: &Name, ty: &JType, name: &Name) -> Result<FieldSig, AllocError>
    ensures { IfOk result (λ sig. sig ≡ signature class.now ty.now name.now) }
{
    Ok(FieldSig {
        class: class.copy(alloc)?,
        ty: JType {
            base: ty.base.copy(alloc)?,
            dims: ty.dims,
        },
        name: name.copy(alloc)?,
    })
}

// Adds a signature and its key behind the others, or neither.
fn push(
    keys: &mut IndexSet<Key>,
    items: &mut Vec<FieldSig>,
    key: Key,
    sig: FieldSig,
) -> Result<(), AllocError>
    requires { ¬ Contains keys.old.keys key }
    ensures key { OnOk result (keys.new.keys ≡ keys.old.keys ++ key ∷ []) }
    ensures item { OnOk result (items.new.items ≡ items.old.items ++ sig ∷ []) }
    ensures same_keys { OnErr result (keys.new.keys ≡ keys.old.keys) }
    ensures same_items { OnErr result (items.new.items ≡ items.old.items) }
{
    keys.reserve(1)?;
    items.push(sig)?;
    match keys.insert(key) {
        Ok(_) => Ok(()),
        Err(_) => unreachable!(),
    }
}

impl Sigs {
    /// No signatures.
    pub fn new(alloc: Global) -> Sigs
        ensures { result ≡ [] }
    {
        Sigs {
            names: IndexSet::new(alloc),
            keys: IndexSet::new(alloc),
            items: Vec::new(alloc),
        }
    }

    /// The signatures, in the order of adding.
    pub fn as_slice(&self) -> &[FieldSig]
        ensures { result.now ≡ self.now }
    {
        self.items.as_slice()
    }

    /// How many there are.
    pub fn len(&self) -> usize
        ensures { result ≡ length self.now }
    {
        self.items.len()
    }

    /// The place of the signature of these parts.
    pub fn place(&self, class: &Name, ty: &JType, name: &Name) -> Option<usize>
        ensures { MatchOption result (¬ Contains self.now (signature class.now ty.now name.now)) (λ n. At self.now n (signature class.now ty.now name.now)) }
    {
        let Some(key) = key_of(&self.names, class, ty, name) else {
            return None;
        };
        self.keys.get_index_of(&key)
    }

    /// Adds the signature of these parts at the end where it isn't there yet. Only a new one is copied.
    pub fn add(
        &mut self,
        alloc: Global,
        class: &Name,
        ty: &JType,
        name: &Name,
    ) -> Result<(), AllocError>
        ensures { OnOk result (self.new ≡ insert_key same_sig self.old (signature class.now ty.now name.now)) }
    {
        if self.place(class, ty, name).is_some() {
            return Ok(());
        }
        let key = add_key(alloc, &mut self.names, class, ty, name)?;
        let sig = signed(alloc, class, ty, name)?;
        push(&mut self.keys, &mut self.items, key, sig)
    }
}
