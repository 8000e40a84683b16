// A line of a list, and what a list says of a method. `words`, `entry` and `lists` stand above.
ghost use Rattle.std.specs.Prelude.{◌≡◌, ◌↔◌, ◌⊎◌, IsTrue};
ghost use Rattle.source_sink.specs.ReadingLists.{is_same, adds};

use clean_base::Name;
use jimple_tree::Sig;

/// What a list says of a method.
#[derive(Clone, Copy, Debug, PartialEq, Eq)]
pub struct Kind {
    pub source: bool,
    pub sink: bool,
}

/// What one of two kinds says.
pub fn either(one: Kind, other: Kind) -> Kind
    ensures source { IsTrue result.source ↔ (IsTrue one.source ⊎ IsTrue other.source) }
    ensures sink { IsTrue result.sink ↔ (IsTrue one.sink ⊎ IsTrue other.sink) }
{
    Kind {
        source: one.source || other.source,
        sink: one.sink || other.sink,
    }
}

/// A line of a list.
#[derive(Debug, Drop)]
pub struct Line {
    pub sig: Sig,
    pub source: bool,
    pub sink: bool,
}

// Whether a signature is this one, with that class in place of its own.
fn is_same(line: &Sig, class: &Name, sig: &Sig) -> bool
    ensures { result ≡ is_same line.now class.now sig.now }
{
    line.name == sig.name
        && line.class == *class
        && line.result == sig.result
        && line.params == sig.params
}

/// The kind, and what the line adds to it where it is of this signature with that class in place of its own.
pub fn with_line(kind: Kind, line: &Line, class: &Name, sig: &Sig) -> Kind
    ensures source { result.source ≡ adds kind.source (is_same line.now.sig class.now sig.now) line.now.source }
    ensures sink { result.sink ≡ adds kind.sink (is_same line.now.sig class.now sig.now) line.now.sink }
{
    if !is_same(&line.sig, class, sig) {
        return kind;
    }
    Kind {
        source: kind.source || line.source,
        sink: kind.sink || line.sink,
    }
}
