// The table of fields (docs/FLOW-RULES.md, "Fields"). What classes declare and what references alone name stand below; who
// looks at statements by their fields above.
ghost use Rattle.std.specs.Prelude.{◌≡◌, ◌↔◌, ◌<◌, ◌≤◌, ◌+◌, Contains, IfOk, IfErr, IsSome, IsTrue, MatchOption, OnOk, Some, length};
ghost use Rattle.clean_base.specs.Limits.{most_fields};
ghost use Rattle.clean_base.specs.Lists.{IsDistinct};
ghost use Rattle.clean_base.specs.declared.fault.InputFault.{InputFault};
ghost use Rattle.clean_base.specs.declared.ids.FieldId.{FieldId};
ghost use Rattle.field_table.specs.Chains.{meaning, Means};
ghost use Rattle.field_table.specs.Fields.{declared_sigs, references};
ghost use Rattle.field_table.specs.Numbers.{all_sigs, named_sigs, own_fields, AreFields, HasFewFields, HaveOneNumber, IsField, IsFieldFault, IsFieldNumber, IsOnly, Refused};
ghost use Rattle.jimple_tree.specs.declared.tree.FieldSig.{FieldSig};

use crate::chain::find_declared;
use crate::declared::declared_in;
use crate::named::named_in;
use crate::sigs::Sigs;
use class_table::ClassTable;
use clean_base::limits::MOST_FIELDS;
use clean_base::{FieldId, InputFault, Stop};
use jimple_tree::FieldSig;
use std::alloc::{AllocError, Global};
use std::marker::Model;

// The elements of arrays and `inside`.
const OWN_FIELDS: usize = 2;

/// The fields of a program.
#[derive(Drop)]
pub struct FieldTable {
    declared: Sigs,
    named: Sigs,
}

impl Model for FieldTable {
    ghost use Rattle.field_table.specs.Kept.{IsKept};
    ghost use Rattle.field_table.specs.Numbers.{Fields};

    ghost Value = { Fields };

    ghost view = { λ t. record { declared = t.declared; named = t.named } };

    ghost invariant = { λ t. IsKept t.declared t.named };
}

// Whether there are no more fields than there is room for.
fn has_few(declared: &Sigs, named: &Sigs) -> bool
    ensures { IsTrue result ↔ (own_fields + (length declared.now + length named.now) ≤ most_fields) }
{
    declared.len().saturating_add(named.len()) <= MOST_FIELDS - OWN_FIELDS
}

// The number of the field at this place behind the own ones.
fn field_id(place: usize) -> FieldId
    requires { own_fields + place ≤ most_fields }
    ensures { result.0 ≡ own_fields + place }
{
    FieldId((OWN_FIELDS + place) as u32)
}

// The fields that classes declare, and then those that references alone name.
fn collected(alloc: Global, table: &ClassTable) -> Result<(Sigs, Sigs), AllocError>
    ensures means { (sig : FieldSig) (own : FieldSig) → Means table.now sig own ↔ (own ≡ meaning table.now sig) }
    ensures declared { IfOk result (λ sigs. sigs.0 ≡ declared_sigs table.now) }
    ensures distinct { IfOk result (λ sigs. IsDistinct sigs.0) }
    ensures named { IfOk result (λ sigs. sigs.1 ≡ named_sigs table.now) }
{
    let declared = declared_in(alloc, table.given())?;
    let named = named_in(alloc, table, &declared)?;
    Ok((declared, named))
}

impl FieldTable {
    // The fields of the classes, where they are few enough.
    fn made(alloc: Global, table: &ClassTable) -> Result<FieldTable, Stop>
        ensures means { (sig : FieldSig) (own : FieldSig) → Means table.now sig own ↔ (own ≡ meaning table.now sig) }
        ensures ok { IfOk result (AreFields table.now) }
        ensures few { OnOk result (HasFewFields table.now) }
        ensures one { OnOk result (HaveOneNumber table.now) }
        ensures err { IfErr result (Refused table.now) }
    {
        let (declared, named) = match collected(alloc, table) {
            Ok(sigs) => sigs,
            Err(AllocError) => return Err(Stop::OutOfMemory),
        };
        if !has_few(&declared, &named) {
            return Err(Stop::Fault(InputFault::LimitFields));
        }
        Ok(FieldTable { declared, named })
    }

    /// The fields of the classes. An error is that they are too many, or want of memory.
    pub fn new(alloc: Global, table: &ClassTable) -> Result<FieldTable, Stop>
        ensures means { (sig : FieldSig) (own : FieldSig) → Means table.now sig own ↔ (own ≡ meaning table.now sig) }
        ensures ok { IfOk result (AreFields table.now) }
        ensures few { OnOk result (HasFewFields table.now) }
        ensures one { OnOk result (HaveOneNumber table.now) }
        ensures faultless { OnOk result ((f : InputFault) → IsFieldFault table.now f → ⊥) }
        ensures err { IfErr result (Refused table.now) }
        ensures only { IfErr result (IsOnly table.now) }
    {
        FieldTable::made(alloc, table)
    }

    /// How many fields there are, the elements of arrays and `inside` among them.
    pub fn count(&self) -> u32
        ensures count { result ≡ own_fields + length (all_sigs self.now) }
        ensures few { result ≤ most_fields }
    {
        (OWN_FIELDS + self.declared.len() + self.named.len()) as u32
    }

    /// The number of the field that the reference means. The table of classes is the one whose fields these are. It takes no
    /// memory.
    pub fn number(&self, table: &ClassTable, sig: &FieldSig) -> Option<FieldId>
        requires { AreFields table.now self.now }
        ensures number { (f : FieldId) → (result ≡ Some f) ↔ IsFieldNumber table.now sig.now f }
        ensures known { Contains (references table.now) sig.now → IsSome result }
    {
        if let Some(place) = find_declared(table, &self.declared, sig) {
            return Some(field_id(place));
        }
        match self.named.place(&sig.class, &sig.ty, &sig.name) {
            Some(place) => Some(field_id(self.declared.len() + place)),
            None => None,
        }
    }

    /// The signature of the field with this number. The elements of arrays and `inside` have none.
    pub fn sig(&self, f: FieldId) -> Option<&FieldSig>
        ensures { MatchOption result ((sig : FieldSig) → IsField (all_sigs self.now) f sig → ⊥) (λ sig. IsField (all_sigs self.now) f sig.now) }
    {
        let number = f.0 as usize;
        if number < OWN_FIELDS {
            return None;
        }
        let place = number - OWN_FIELDS;
        let declared = self.declared.as_slice();
        if place < declared.len() {
            return Some(&declared[place]);
        }
        self.named.as_slice().get(place - declared.len())
    }
}
