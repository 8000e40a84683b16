// What the names of a body stand for, looked up by hash. Texts stand below; the pass over bodies above.
ghost use Rattle.std.specs.Prelude.{◌≡◌, ◌≤◌, ◌^◌, List, ℕ, length, map, nat_eq, IfOk};
ghost use Rattle.std.specs.Borrow.{Bor};
ghost use Rattle.std.specs.Cmp.Lexicographic.{pointwise};
ghost use Rattle.std.specs.HashMap.{get};
ghost use Rattle.std.specs.List.{position, position_from};
ghost use Rattle.std.specs.Str.{bytes_eq};
ghost use Rattle.clean_base.specs.Limits.{most_locals};
ghost use Rattle.jimple_tree.specs.declared.tree.Local.{Local};
ghost use Rattle.jimple_names.specs.declared.scope.Label.{Label};
ghost use Rattle.jimple_names.specs.Texts.{unquoted};
ghost use Rattle.jimple_names.specs.Scope.{local_at, label_at};

use crate::texts::{is_quoted, unquoted};
use clean_base::Name;
use jimple_tree::Local;
use std::alloc::{AllocError, Global};
use std::collections::HashMap;

/// A label, and the place of the statement behind it.
#[derive(Debug, Drop)]
pub struct Label {
    pub name: Name,
    pub place: u32,
}

/// The locals and labels of a body, and the number of the first one of each name.
#[derive(Drop)]
pub struct Names<'a> {
    locals: &'a [Local],
    labels: &'a [Label],
    local_numbers: HashMap<&'a [u8], u32>,
    label_numbers: HashMap<&'a [u8], u32>,
    ghost few: { length locals.now ≤ most_locals },
    ghost local_numbered: { (q : Bor (List ℕ)) → get (λ x y. pointwise nat_eq x.now y.now) local_numbers q ≡ position_from (λ (l : Local). bytes_eq l.name q.now) 0 locals.now },
    ghost label_numbered: { (q : Bor (List ℕ)) → get (λ x y. pointwise nat_eq x.now y.now) label_numbers q ≡ position_from (λ (l : Label). bytes_eq l.name q.now) 0 labels.now },
}

/// The number of the first local of each name.
fn number_locals<'a>(
    alloc: Global,
    locals: &'a [Local],
) -> Result<HashMap<&'a [u8], u32>, AllocError>
    requires { length locals.now ≤ 2 ^ 32 }
    ensures { IfOk result (λ m. (q : Bor (List ℕ)) → get (λ x y. pointwise nat_eq x.now y.now) m q ≡ position_from (λ (l : Local). bytes_eq l.name q.now) 0 locals.now) }
{
    let mut numbers = HashMap::new(alloc);
    let mut number = locals.len();
    while number > 0 {
        number -= 1;
        numbers.insert(locals[number].name.bytes(), number as u32)?;
    }
    Ok(numbers)
}

/// The number of the first label of each name.
fn number_labels<'a>(
    alloc: Global,
    labels: &'a [Label],
) -> Result<HashMap<&'a [u8], u32>, AllocError>
    requires { length labels.now ≤ 2 ^ 32 }
    ensures { IfOk result (λ m. (q : Bor (List ℕ)) → get (λ x y. pointwise nat_eq x.now y.now) m q ≡ position_from (λ (l : Label). bytes_eq l.name q.now) 0 labels.now) }
{
    let mut numbers = HashMap::new(alloc);
    let mut number = labels.len();
    while number > 0 {
        number -= 1;
        numbers.insert(labels[number].name.bytes(), number as u32)?;
    }
    Ok(numbers)
}

/// The number beside the name of a word.
fn look_up(
    alloc: Global,
    numbers: &HashMap<&[u8], u32>,
    word: &[u8],
) -> Result<Option<u32>, AllocError>
    ensures { IfOk result (λ found. (q : Bor (List ℕ)) → q.now ≡ unquoted word.now → found ≡ get (λ x y. pointwise nat_eq x.now y.now) numbers.now q) }
{
    if is_quoted(word) {
        let name = unquoted(alloc, word)?;
        Ok(numbers.get(name.bytes()).copied())
    } else {
        Ok(numbers.get(word).copied())
    }
}

impl<'a> Names<'a> {
    pub fn new(
        alloc: Global,
        locals: &'a [Local],
        labels: &'a [Label],
    ) -> Result<Names<'a>, AllocError>
        requires locals { length locals.now ≤ most_locals }
        requires labels { length labels.now ≤ 2 ^ 32 }
        ensures locals { IfOk result (λ s. s.locals.now ≡ locals.now) }
        ensures labels { IfOk result (λ s. s.labels.now ≡ labels.now) }
    {
        let local_numbers = number_locals(alloc, locals)?;
        let label_numbers = number_labels(alloc, labels)?;
        Ok(Names {
            locals,
            labels,
            local_numbers,
            label_numbers,
        })
    }

    /// The number of the first local of the name that a word writes.
    pub fn local_number(&self, alloc: Global, word: &[u8]) -> Result<Option<u32>, AllocError>
        ensures { IfOk result (λ found. found ≡ local_at (map (λ (l : Local). l.name) self.now.locals.now) (unquoted word.now)) }
    {
        let found = look_up(alloc, &self.local_numbers, word)?;
        Ok(found)
    }

    /// The number of the first label of the name that a word writes.
    pub fn label_number(&self, alloc: Global, word: &[u8]) -> Result<Option<u32>, AllocError>
        ensures { IfOk result (λ found. found ≡ position (λ (l : Label). bytes_eq l.name (unquoted word.now)) self.now.labels.now) }
    {
        let found = look_up(alloc, &self.label_numbers, word)?;
        Ok(found)
    }

    /// The local of the name that a word writes.
    pub fn local(&self, alloc: Global, word: &[u8]) -> Result<Option<u16>, AllocError>
        ensures { IfOk result (λ found. found ≡ local_at (map (λ (l : Local). l.name) self.now.locals.now) (unquoted word.now)) }
    {
        match self.local_number(alloc, word)? {
            Some(number) => Ok(Some(number as u16)),
            None => Ok(None),
        }
    }

    /// The place of the label of the name that a word writes.
    pub fn label(&self, alloc: Global, word: &[u8]) -> Result<Option<u32>, AllocError>
        ensures { IfOk result (λ found. found ≡ label_at self.now.labels.now (unquoted word.now)) }
    {
        match self.label_number(alloc, word)? {
            Some(number) => Ok(Some(self.labels[number as usize].place)),
            None => Ok(None),
        }
    }
}
