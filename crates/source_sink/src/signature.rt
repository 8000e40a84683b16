// Reads one method signature. `cursor` stands below.
ghost use Rattle.std.specs.Prelude.{◌≡◌, IfOk, IfSome, IfNone};
ghost use Rattle.source_sink.specs.Signature.{Spells};

use crate::cursor::{Cursor, Miss};
use jimple_tree::Sig;
use std::alloc::{AllocError, Global};

/// The signature that the whole text spells, or none where it spells none.
pub fn read_sig(alloc: Global, text: &[u8]) -> Result<Option<Sig>, AllocError>
    ensures some { IfOk result (λ found. IfSome found (λ s. Spells s text.now × ((other : Sig) → Spells other text.now → other ≡ s))) }
    ensures none { IfOk result (λ found. IfNone found ((s : Sig) → Spells s text.now → ⊥)) }
{
    let mut cursor = Cursor::new(text);
    let found = match cursor.take_sig(alloc) {
        Ok(found) => found,
        Err(Miss::Other) => return Ok(None),
        Err(Miss::Memory) => return Err(AllocError),
    };
    if !cursor.is_at_end() {
        return Ok(None);
    }
    Ok(Some(found))
}
