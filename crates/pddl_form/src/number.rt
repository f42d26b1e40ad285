ghost use Rattle.std.specs.Prelude.{◌≡◌, ◌≤◌, IfOk, IfSome};
ghost use Rattle.pddl_form.specs.Fault.{Gives};
ghost use Rattle.std.specs.List.{list_all};
ghost use Rattle.pddl_form.specs.Number.{is_digit, is_zero, are_zeros, most, value_of, number_at};
ghost use Rattle.pddl_form.specs.Sight.{named_of};

use crate::words::Named;
use bd_base::{Cause, Text, TextErr};
use std::alloc::Global;

fn is_digit(b: u8) -> bool
    ensures { result ≡ is_digit b }
{
    b >= 48 && b <= 57
}

fn all_zeros(word: &[u8]) -> bool
    ensures { result ≡ list_all is_zero word.now }
{
    word.iter().all(|b| *b == b'0')
}

fn are_zeros(word: &[u8]) -> bool
    ensures { result ≡ are_zeros word.now }
{
    match word.split_first() {
        None => false,
        Some((first, rest)) => *first == b'0' && all_zeros(rest),
    }
}

/// The number that a word is, of at most 1,000,000,000.
pub fn value_of(word: &[u8]) -> Option<u64>
    ensures value { result ≡ value_of word.now }
    ensures small { IfSome result (λ n. n ≤ most) }
{
    let mut some = false;
    let mut value = 0u64;
    let mut rest = word;
    while let Some((b, after)) = rest.split_first() {
        if !is_digit(*b) {
            if some && *b == b'.' && are_zeros(after) {
                return Some(value);
            }
            return None;
        }
        value = 10 * value + u64::from(b.saturating_sub(b'0'));
        if value > 1_000_000_000 {
            return None;
        }
        some = true;
        rest = after;
    }
    if some { Some(value) } else { None }
}

pub fn number_at(alloc: Global, word: Named<'_>) -> Result<u64, TextErr>
    ensures number { Gives (λ n. n) result (number_at (named_of word.entry)) }
    ensures small { IfOk result (λ n. n ≤ most) }
{
    match value_of(word.text) {
        Some(value) => Ok(value),
        None => {
            let cause = Cause::BadNumber(Text::from_slice(alloc, word.text)?);
            Err(TextErr::At {
                place: word.place,
                cause,
            })
        }
    }
}
