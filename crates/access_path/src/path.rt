// What rules do with the path of a taint (docs/FLOW-RULES.md, "Access paths"). Facts stand below, the rules above.
ghost use Rattle.std.specs.Prelude.{◌≡◌, ◌≢◌, ◌↔◌, ◌≤◌, [], IsTrue, Some, slice_get};
ghost use Rattle.access_path.specs.Paths.{StartsWith, activate, prepend, rebase, sleep, strip};

use crate::fact::{Base, Taint, Wake};
use clean_base::{FieldId, Fields, StmtId};

// Whether this is the first of the fields.
fn is_first(fields: Fields, field: FieldId) -> bool
    ensures { IsTrue result ↔ (slice_get fields 0 ≡ Some field) }
{
    if fields.is_empty() {
        return false;
    }
    fields.at(0) == field
}

/// Whether the path begins with this base and this field.
pub fn starts_with(t: &Taint, base: Base, field: FieldId) -> bool
    ensures { IsTrue result ↔ StartsWith t.now base field }
{
    t.base == base && is_first(t.fields, field)
}

/// The same fields followed from another base.
pub const fn rebase(t: &Taint, base: Base) -> Taint
    ensures { result ≡ rebase base t.now }
{
    Taint { base, ..*t }
}

/// The path without its first field.
pub fn strip(t: &Taint) -> Taint
    requires { t.now.fields ≢ [] }
    ensures { result ≡ strip t.now }
{
    let mut fields = Fields::new();
    for i in 0..t.fields.len() - 1 {
        fields.push(t.fields.at(i + 1));
    }
    Taint { fields, ..*t }
}

/// The path with a field before the others, cut to its first `k` fields.
pub fn prepend(t: &Taint, field: FieldId, k: u8) -> Taint
    requires some { 1 ≤ k }
    requires few { k ≤ 8 }
    ensures { result ≡ prepend k field t.now }
{
    let mut fields = Fields::new();
    fields.push(field);
    for i in 0..t.fields.len().min(k as usize - 1) {
        fields.push(t.fields.at(i));
    }
    Taint { fields, ..*t }
}

/// The taint as an active one.
pub const fn activate(t: &Taint) -> Taint
    ensures { result ≡ activate t.now }
{
    Taint {
        wake: Wake::Active,
        ..*t
    }
}

/// The taint as one that this statement makes active. An inactive one stays as it is.
pub const fn sleep(t: &Taint, at: StmtId) -> Taint
    requires { t.now.fields ≢ [] }
    ensures { result ≡ sleep at t.now }
{
    match t.wake {
        Wake::Active => Taint {
            wake: Wake::Asleep(at),
            ..*t
        },
        Wake::Asleep(_) => *t,
    }
}
