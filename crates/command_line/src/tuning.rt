// The numbers of a command.
ghost use Rattle.std.specs.Prelude.{◌≡◌, ◌^◌, ◌<◌, ℕ, IfSome, IfNone, option_map};
ghost use Rattle.command_line.specs.Tuning.{IsNumber, IsTuning, Writes};
ghost use Rattle.command_line.specs.Words.{IsOnly};
ghost use Rattle.command_line.specs.Written.{given_in, rows_in};

use crate::matches::value_of;
use clap::ArgMatches;

/// How a solver works: the longest path, how many commits may pass without a sweep, and the most path edges.
#[derive(Clone, Copy, Debug)]
pub struct Tuning {
    pub k: u8,
    pub period: u64,
    pub max_edges: u64,
}

// The number that the text writes, if it is one of 64 bits.
fn number_of(text: &str) -> Option<u64>
    ensures some { IfSome result (Writes text.now) }
    ensures none { IfNone result ((n : ℕ) → n < 2 ^ 64 → Writes text.now n → ⊥) }
{
    if text.len() > 20 || text.starts_with("+") {
        return None;
    }
    text.parse::<u64>().ok()
}

// The number of an option, from the lowest to the highest, or the default where it isn't given.
pub(crate) fn number_given(
    text: Option<&str>,
    lowest: u64,
    highest: u64,
    default: u64,
) -> Option<u64>
    ensures some { IfSome result (IsNumber lowest highest default (option_map (λ s. s.now) text.entry)) }
    ensures none { IfNone result ((n : ℕ) → IsNumber lowest highest default (option_map (λ s. s.now) text.entry) n → ⊥) }
{
    let Some(text) = text else {
        return Some(default);
    };
    let Some(n) = number_of(text) else {
        return None;
    };
    if lowest <= n && n <= highest {
        Some(n)
    } else {
        None
    }
}

// What the line asks for, or none where a number isn't in its range.
pub(crate) fn tuning_of(line: &ArgMatches<'_>) -> Option<Tuning>
    ensures some { IfSome result (IsOnly (IsTuning (given_in (rows_in line.now)))) }
    ensures none { IfNone result ((tuning : Tuning) → IsTuning (given_in (rows_in line.now)) tuning → ⊥) }
{
    let Some(k) = number_given(value_of(line, "k"), 1, 8, 5) else {
        return None;
    };
    let Some(period) = number_given(value_of(line, "period"), 1, 1_000_000, 256) else {
        return None;
    };
    let Some(max_edges) = number_given(value_of(line, "max-edges"), 1, u64::MAX - 1, u64::MAX - 1)
    else {
        return None;
    };
    Some(Tuning {
        k: k as u8,
        period,
        max_edges,
    })
}
