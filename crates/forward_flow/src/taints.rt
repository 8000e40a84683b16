// A taint without its fields, and as one that lies inside an object; and whether a taint says anything (docs/FLOW-RULES.md,
// "Library calls" and "What a statement gives"). Paths stand below, what statements give above.
ghost use Rattle.std.specs.Prelude.{◌≡◌, ◌↔◌, [], ◌∷◌, IsTrue, Some};
ghost use Rattle.access_path.specs.Paths.{inside, with_fields};
ghost use Rattle.flow_rules.specs.Locals.{Says};
ghost use Rattle.flow_rules.specs.Only.{IsOnly};

use access_path::{Taint, Wake};
use clean_base::Fields;

// The path without any field.
pub(crate) fn bare(t: &Taint) -> Taint
    ensures { result ≡ with_fields [] t.now }
{
    Taint {
        fields: Fields::new(),
        ..*t
    }
}

// The path with the one field for what lies inside.
pub(crate) fn inside(t: &Taint) -> Taint
    ensures { result ≡ with_fields (inside ∷ []) t.now }
{
    let mut fields = Fields::new();
    fields.push(flow_rules::inside());
    Taint { fields, ..*t }
}

// Whether the taint says anything: an inactive one without a field doesn't.
fn says(t: &Taint) -> bool
    ensures { IsTrue result ↔ Says t.now }
{
    t.wake == Wake::Active || !t.fields.is_empty()
}

// The taint, where it says anything.
pub(crate) fn said(taint: Option<Taint>) -> Option<Taint>
    ensures { IsOnly (λ u. Says u × (taint ≡ Some u)) result }
{
    let t = taint?;
    if says(&t) { Some(t) } else { None }
}
