// Lists of at most eight fields.
ghost use Rattle.std.specs.Prelude.{◌≡◌, ◌<◌, ◌≤◌, ◌∷◌, [], ◌++◌, length, slice_get, List, Some, ◌==◌};

use crate::{FieldId, Plain};
use std::marker::Model;

/// At most eight fields.
#[derive(Clone, Copy, Debug, PartialEq, Eq, PartialOrd, Ord, Hash)]
pub struct Fields {
    places: [FieldId; 8],
    len: u8,
}

impl Model for Fields {
    ghost use Rattle.std.specs.Prelude.{List};
    ghost use Rattle.clean_base.specs.declared.ids.FieldId.{FieldId};

    ghost Value = { List FieldId };

    ghost use Rattle.clean_base.specs.Fields.{listed, padded, IsPadded, padded-listed};

    ghost view = { listed };

    ghost invariant = { IsPadded };

    ghost inverse = { padded };

    ghost inverse_ok = { padded-listed };
}

impl Fields {
    pub fn new() -> Fields
        ensures { result ≡ [] }
    {
        Fields {
            places: [FieldId(0); 8],
            len: 0,
        }
    }

    pub fn len(&self) -> usize
        ensures is { result ≡ length self.now }
        ensures few { result ≤ 8 }
    {
        self.len as usize
    }

    pub fn is_empty(&self) -> bool
        ensures { result ≡ (length self.now == 0) }
    {
        self.len == 0
    }

    pub fn at(&self, i: usize) -> FieldId
        requires { i < length self.now }
        ensures { slice_get self.now i ≡ Some result }
    {
        let places = &self.places;
        places[i]
    }

    pub fn push(&mut self, f: FieldId)
        requires { length self.old < 8 }
        ensures { self.new ≡ self.old ++ f ∷ [] }
    {
        self.places[self.len as usize] = f;
        self.len += 1;
    }
}

impl Plain for Fields {
    ghost use Rattle.clean_base.specs.Exact.{exact_list};

    ghost exact = { exact_list };
}
