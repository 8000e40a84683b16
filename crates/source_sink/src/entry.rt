// What a line of a list of sources and sinks gives. `cursor` and `words` stand below; `lists` above.
ghost use Rattle.std.specs.Prelude.{IfOk, IfErr};
ghost use Rattle.source_sink.specs.Lists.{Gives};
ghost use Rattle.source_sink.specs.ReadingLists.{GivesNothing};

use crate::cursor::{Cursor, Miss};
use crate::line::Line;
use crate::words::kind_behind;
use std::alloc::Global;

/// Reads a line that is not passed over.
pub fn read_line(alloc: Global, line: &[u8]) -> Result<Line, Miss>
    ensures ok { IfOk result (Gives line.now) }
    ensures err { IfErr result (λ miss. GivesNothing miss line.now) }
{
    let mut cursor = Cursor::new(line);
    let sig = cursor.take_sig(alloc)?;
    match kind_behind(cursor.left()) {
        Some(kind) => Ok(Line {
            sig,
            source: kind.source,
            sink: kind.sink,
        }),
        None => Err(Miss::Other),
    }
}
