ghost use Rattle.std.specs.Prelude.{◌≡◌, ◌++◌, ◌∷◌, false, ℕ, List, MatchOption};
ghost use Rattle.std.specs.Str.{bytes_eq};
ghost use Rattle.plan_calls.specs.Finding.{call_text, found};

use bd_base::ActionId;
use bd_task::Task;
use pddl_types::Call;

// What stands behind a front.
fn behind<'a>(text: &'a [u8], front: &[u8]) -> Option<&'a [u8]>
    ensures { MatchOption result ((more : List ℕ) → bytes_eq text.now (front.now ++ more) ≡ false) (λ rest. (more : List ℕ) → bytes_eq text.now (front.now ++ more) ≡ bytes_eq rest.now more) }
{
    text.strip_prefix(front)
}

// What stands behind a space and a word.
fn behind_word<'a>(text: &'a [u8], word: &[u8]) -> Option<&'a [u8]>
    ensures { MatchOption result ((more : List ℕ) → bytes_eq text.now ((32 ∷ word.now) ++ more) ≡ false) (λ rest. (more : List ℕ) → bytes_eq text.now ((32 ∷ word.now) ++ more) ≡ bytes_eq rest.now more) }
{
    match text.split_first() {
        None => None,
        Some((b, rest)) => { if *b == b' ' { behind(rest, word) } else { None } }
    }
}

// Whether a text is the call's name and arguments.
fn is_call(text: &[u8], call: &Call) -> bool
    ensures { result ≡ bytes_eq text.now (call_text call.now) }
{
    match behind(text, call.name.as_slice()) {
        None => false,
        Some(front) => {
            let mut rest = front;
            for word in call.args.as_slice() {
                match behind_word(rest, word.as_slice()) {
                    None => return false,
                    Some(more) => rest = more,
                }
            }
            rest.is_empty()
        }
    }
}

/// The action with the call's name and arguments. It takes no memory; `calls_of` resolves many calls at once.
pub fn find(task: &Task, call: &Call) -> Option<ActionId>
    ensures { result ≡ found task.now.actions call.now }
{
    for a in 0..task.actions() {
        if is_call(task.action(ActionId(a)).name.as_slice(), call) {
            return Some(ActionId(a));
        }
    }
    None
}
