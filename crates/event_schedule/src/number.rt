// The numbers of a schedule. `order` stands above.
ghost use Rattle.std.specs.Prelude.{◌≡◌, ◌<◌, ◌^◌, ◌↔◌, ℕ, IfNone, IfSome, IsTrue};
ghost use Rattle.std.specs.Str.Parse.{IsNumeral, digits_value};
ghost use Rattle.event_schedule.specs.Schedules.{IsShort, Writes};

fn is_short(text: &[u8]) -> bool
    ensures { IsTrue result ↔ IsShort text.now }
{
    text.len() < 2 || text[0] != b'0'
}

// The number that the digits write, if it is one of 64 bits.
fn number_of(text: &[u8]) -> Option<u64>
    ensures some { IfSome result (λ n. IsNumeral 10 text.now × (n ≡ digits_value 10 text.now)) }
    ensures none { IfNone result (IsNumeral 10 text.now → digits_value 10 text.now < 2 ^ 64 → ⊥) }
{
    let Ok(text) = str::from_utf8(text) else {
        return None;
    };
    if text.starts_with("+") {
        return None;
    }
    text.parse::<u64>().ok()
}

pub(crate) fn read_place(text: &[u8]) -> Option<u64>
    ensures some { IfSome result (Writes 64 text.now) }
    ensures none { IfNone result ((n : ℕ) → Writes 64 text.now n → ⊥) }
{
    if !is_short(text) {
        return None;
    }
    number_of(text)
}

pub(crate) fn read_worker(text: &[u8]) -> Option<u32>
    ensures some { IfSome result (Writes 32 text.now) }
    ensures none { IfNone result ((n : ℕ) → Writes 32 text.now n → ⊥) }
{
    let Some(n) = read_place(text) else {
        return None;
    };
    if n > u32::MAX as u64 {
        return None;
    }
    Some(n as u32)
}
