//! What domains, problems and plans are read with: words and names by their places, tables of names, typed lists,
//! things with their types, terms and atoms over declared names, numbers, titles, and the parts of a condition.
//!
//! It may know bd_base, pddl_lex and pddl_types. Each reader promises its function of specs/ on trees: the value, or
//! the first fault with its place, cause and word, unless memory is wanting. A typed list and a list of things are
//! also said as relations of what they spell. Names are looked up by hash, never by a walk through a list.
#![tactic(auto)]

mod groups;
mod names;
mod number;
mod parts;
mod reserved;
mod rows;
mod table;
mod terms;
mod things;
mod titles;
mod words;

pub use groups::{Group, Groups, is_either, type_at};
pub use names::Names;
pub use number::number_at;
pub use parts::parts_into;
pub use reserved::{count_at, declare, is_reserved, unreserved, unsupported};
pub use rows::{heads_of, things_of};
pub use table::{Table, with_row};
pub use terms::{Scope, arity_fits, atom_at, delete_at, head_index, term_at};
pub use things::{kind_at, more_things, things_at};
pub use titles::{body_at, once, requirements_at};
pub use words::{
    Headed, Named, begins, end_at, first_at, head_at, headed_by, is_name, is_same, is_word,
    list_at, must, name_at, place_at, shape, unless_odd, variable_at, word_at,
};
