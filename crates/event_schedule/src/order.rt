// One line of a schedule. `number` stands below; `schedule` above.
ghost use Rattle.std.specs.Prelude.{◌≡◌, ◌++◌, List, ℕ, codes, IfNone, IfOk, IfSome};
ghost use Rattle.event_schedule.specs.Schedules.{Behind, Gives, Sets, Writes};
ghost use Rattle.source_sink.specs.Signature.{Spells};

use crate::number::{read_place, read_worker};
use jimple_tree::Sig;
use list_lines::word_len;
use source_sink::read_sig;
use std::alloc::{AllocError, Global};

/// What a line of a schedule orders. Places are counted from the front of the queue.
#[derive(Debug, Drop)]
pub enum Order {
    Take { worker: u32, place: u64 },
    Commit { worker: u32 },
    Back { worker: u32 },
    Retire { sig: Sig },
    Sweep,
}

// What stands behind the word, where the line begins with it.
fn behind<'a>(line: &'a [u8], word: &[u8]) -> Option<&'a [u8]>
    ensures some { IfSome result (λ rest. line.now ≡ word.now ++ rest.now) }
    ensures none { IfNone result ((rest : List ℕ) → line.now ≡ word.now ++ rest → ⊥) }
{
    line.strip_prefix(word)
}

// The worker and the place that the text sets, with one space between them.
fn read_pair(text: &[u8]) -> Option<(u32, u64)>
    ensures some { IfSome result (λ pair. Sets text.now pair.0 pair.1) }
    ensures none { IfNone result ((worker place : ℕ) → Sets text.now worker place → ⊥) }
{
    let (first, rest) = text.split_at(word_len(text));
    let Some(second) = behind(rest, b" ") else {
        return None;
    };
    let Some(worker) = read_worker(first) else {
        return None;
    };
    let Some(place) = read_place(second) else {
        return None;
    };
    Some((worker, place))
}

fn read_take(line: &[u8]) -> Option<(u32, u64)>
    ensures some { IfSome result (λ pair. Behind (codes "take ") (λ text. Sets text pair.0 pair.1) line.now) }
    ensures none { IfNone result ((worker place : ℕ) → Behind (codes "take ") (λ text. Sets text worker place) line.now → ⊥) }
{
    let Some(text) = behind(line, b"take ") else {
        return None;
    };
    read_pair(text)
}

// The worker behind this word.
fn worker_behind(line: &[u8], word: &[u8]) -> Option<u32>
    ensures some { IfSome result (λ worker. Behind word.now (λ text. Writes 32 text worker) line.now) }
    ensures none { IfNone result ((worker : ℕ) → Behind word.now (λ text. Writes 32 text worker) line.now → ⊥) }
{
    let Some(text) = behind(line, word) else {
        return None;
    };
    read_worker(text)
}

fn read_retire(alloc: Global, line: &[u8]) -> Result<Option<Sig>, AllocError>
    ensures some { IfOk result (λ found. IfSome found (λ sig. Behind (codes "retire ") (Spells sig) line.now)) }
    ensures none { IfOk result (λ found. IfNone found ((sig : Sig) → Behind (codes "retire ") (Spells sig) line.now → ⊥)) }
{
    let Some(text) = behind(line, b"retire ") else {
        return Ok(None);
    };
    read_sig(alloc, text)
}

// What the line orders, or none where it isn't understood.
pub(crate) fn read_order(alloc: Global, line: &[u8]) -> Result<Option<Order>, AllocError>
    ensures some { IfOk result (λ found. IfSome found (Gives line.now)) }
    ensures none { IfOk result (λ found. IfNone found ((order : Order) → Gives line.now order → ⊥)) }
{
    if let Some((worker, place)) = read_take(line) {
        return Ok(Some(Order::Take { worker, place }));
    }
    if let Some(worker) = worker_behind(line, b"commit ") {
        return Ok(Some(Order::Commit { worker }));
    }
    if let Some(worker) = worker_behind(line, b"back ") {
        return Ok(Some(Order::Back { worker }));
    }
    if let Some(sig) = read_retire(alloc, line)? {
        return Ok(Some(Order::Retire { sig }));
    }
    if line == b"sweep".as_slice() {
        return Ok(Some(Order::Sweep));
    }
    Ok(None)
}
