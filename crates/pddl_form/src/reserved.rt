ghost use Rattle.std.specs.Prelude.{◌≡◌, codes};
ghost use Rattle.pddl_form.specs.Fault.{Gives};
ghost use Rattle.pddl_form.specs.Reserved.{is_reserved, unreserved, unsupported, declare_at, count_at};
ghost use Rattle.pddl_form.specs.Sight.{named_of, headed_of};

use crate::names::Names;
use crate::words::{Headed, Named, is_same};
use bd_base::{Cause, Text, TextErr};
use std::alloc::Global;

/// Whether the word is a head of PDDL's conditions, effects and expressions.
#[tactic(auto, unfolding(crate::specs::Reserved::is_reserved))]
pub fn is_reserved(w: &[u8]) -> bool
    ensures { result ≡ is_reserved w.now }
{
    is_same(w, b"and")
        || is_same(w, b"not")
        || is_same(w, b"=")
        || is_same(w, b"or")
        || is_same(w, b"imply")
        || is_same(w, b"forall")
        || is_same(w, b"exists")
        || is_same(w, b"when")
        || is_same(w, b"increase")
        || is_same(w, b"decrease")
        || is_same(w, b"assign")
        || is_same(w, b"scale-up")
        || is_same(w, b"scale-down")
        || is_same(w, b"preference")
        || is_same(w, b"<")
        || is_same(w, b">")
        || is_same(w, b"<=")
        || is_same(w, b">=")
}

/// The head is none of these.
pub fn unreserved(alloc: Global, list: Headed<'_>) -> Result<(), TextErr>
    ensures { Gives (λ _. tt) result (unreserved (headed_of list.entry)) }
{
    if is_reserved(list.head.text) {
        let cause = Cause::Unsupported(Text::from_slice(alloc, list.head.text)?);
        return Err(TextErr::At {
            place: list.place,
            cause,
        });
    }
    Ok(())
}

/// The word at the place is outside the profile.
pub fn unsupported(alloc: Global, place: u32, word: &[u8]) -> Result<(), TextErr>
    ensures { Gives (λ _. tt) result (unsupported place word.now) }
{
    let cause = Cause::Unsupported(Text::from_slice(alloc, word)?);
    Err(TextErr::At { place, cause })
}

/// The name is put behind those before it, where it is none of them.
pub fn declare<'a>(alloc: Global, name: Named<'a>, names: &mut Names<'a>) -> Result<(), TextErr>
    ensures { Gives (λ _. names.new) result (declare_at (named_of name.entry) names.old) }
{
    if names.declare(name.text)? {
        return Ok(());
    }
    let cause = Cause::Clash(Text::from_slice(alloc, name.text)?);
    Err(TextErr::At {
        place: name.place,
        cause,
    })
}

/// So many items stand behind the head.
pub fn count_at(alloc: Global, list: Headed<'_>, count: usize) -> Result<(), TextErr>
    ensures { Gives (λ _. tt) result (count_at (headed_of list.entry) count) }
{
    if list.items.len() == count {
        return Ok(());
    }
    let cause = Cause::Arity(Text::from_slice(alloc, list.head.text)?);
    Err(TextErr::At {
        place: list.place,
        cause,
    })
}
