// What a line of a component list says. Names, components and what all lists share stand below; `list` above.
ghost use Rattle.std.specs.Prelude.{◌≡◌, ◌<◌, IfOk, IfSome, IfNone};
ghost use Rattle.std.specs.List.{list_all};
ghost use Rattle.dummy_main.specs.declared.component.Component.{Component};
ghost use Rattle.dummy_main.specs.declared.component.ComponentKind.{ComponentKind};
ghost use Rattle.dummy_main.specs.Listing.{is_class_byte, word_of, Gives};
ghost use Rattle.dummy_main.specs.ReadingList.{Says};

use crate::{Component, ComponentKind};
use clean_base::Name;
use list_lines::{is_passed_over, without_blanks_before, word_len};
use std::alloc::{AllocError, Global};

/// What a line says.
#[derive(Debug, Drop)]
pub enum Said {
    Nothing,
    Names(Component),
    /// It isn't understood.
    Other,
}

fn kind_of(word: &[u8]) -> Option<ComponentKind>
    ensures some { IfSome result (λ kind. word.now ≡ word_of kind) }
    ensures none { IfNone result ((kind : ComponentKind) → word.now ≡ word_of kind → ⊥) }
{
    if word == b"activity".as_slice() {
        Some(ComponentKind::Activity)
    } else if word == b"service".as_slice() {
        Some(ComponentKind::Service)
    } else if word == b"receiver".as_slice() {
        Some(ComponentKind::Receiver)
    } else if word == b"provider".as_slice() {
        Some(ComponentKind::Provider)
    } else {
        None
    }
}

fn has_no_quote(name: &[u8]) -> bool
    ensures { result ≡ list_all is_class_byte name.now }
{
    name.iter().all(|c| *c != b'\'')
}

// The component that a line gives.
fn component_of(alloc: Global, line: &[u8]) -> Result<Option<Component>, AllocError>
    ensures some { IfOk result (λ found. IfSome found (Gives line.now)) }
    ensures none { IfOk result (λ found. IfNone found ((c : Component) → Gives line.now c → ⊥)) }
{
    let len = word_len(line);
    let name = without_blanks_before(&line[len..]);
    let kind = match kind_of(&line[..len]) {
        Some(kind) => kind,
        None => return Ok(None),
    };
    if name.is_empty() || !has_no_quote(name) {
        return Ok(None);
    }
    Ok(Some(Component {
        kind,
        name: Name::from_vec(Vec::from_slice(alloc, name)?),
    }))
}

/// What a line without blanks at its ends says.
pub(crate) fn read_line(alloc: Global, line: &[u8]) -> Result<Said, AllocError>
    ensures { IfOk result (λ said. Says line.now said) }
{
    if is_passed_over(line) {
        return Ok(Said::Nothing);
    }
    match component_of(alloc, line)? {
        Some(component) => Ok(Said::Names(component)),
        None => Ok(Said::Other),
    }
}
