ghost use Rattle.std.specs.Prelude.{◌≡◌, ◌++◌, map, OnOk};
ghost use Rattle.pddl_form.specs.Parts.{parts_of};

use crate::words::is_word;
use bd_base::NoMemory;
use pddl_lex::Sexp;

/// Puts the parts of a condition or an effect at the end of the list.
pub fn parts_into<'a>(tree: &'a Sexp, parts: &mut Vec<&'a Sexp>) -> Result<(), NoMemory>
    ensures { OnOk result (map (λ p. p.now) parts.new.items ≡ map (λ p. p.now) parts.old.items ++ parts_of tree.now) }
{
    match tree {
        Sexp::Word { .. } => {
            parts.push(tree)?;
        }
        Sexp::List { items, .. } => {
            match items.as_slice().split_first() {
                None => {}
                Some((head, rest)) => {
                    if is_word(b"and", head) {
                        for item in rest {
                            parts_into(item, parts)?;
                        }
                    } else {
                        parts.push(tree)?;
                    }
                }
            }
        }
    }
    Ok(())
}
