// The modifiers of classes and methods (docs/FLOW-RULES.md, "Classes"). The resolution of calls and the lists of concrete
// classes stand above.
ghost use Rattle.std.specs.Prelude.{◌↔◌, codes, Contains, IsTrue};

use clean_base::Name;

/// Whether `abstract` is one of them.
pub fn is_abstract(modifiers: &[Name]) -> bool
    ensures { IsTrue result ↔ Contains modifiers.now (codes "abstract") }
{
    for modifier in modifiers {
        if modifier.bytes() == b"abstract".as_slice() {
            return true;
        }
    }
    false
}
