ghost use Rattle.std.specs.Prelude.{◌≡◌, ◌<◌, ◌^◌, ℕ, List, true, cond, length, map, slice_index_or, None, Some, IfOk};
ghost use Rattle.bd_ground.specs.Atoms.{is_among, number_of};
ghost use Rattle.plan_calls.specs.Places.{noted};
ghost use Rattle.plan_calls.specs.Finding.{action_named, found, call_text};

use crate::texts::{Texts, text_of, texts_of};
use bd_base::{ActionId, NoMemory};
use bd_task::Task;
use pddl_types::Call;
use std::alloc::Global;

fn no_places(alloc: Global, n: usize) -> Result<Vec<Option<u32>>, NoMemory>
    ensures sized { IfOk result (λ places. length places.items ≡ n) }
    ensures none { IfOk result (λ places. (k : ℕ) → slice_index_or places.items k None ≡ None) }
{
    let mut places = Vec::new(alloc);
    for _k in 0..n {
        places.push(None)?;
    }
    Ok(places)
}

fn place_at(places: &[Option<u32>], k: usize) -> Option<u32>
    ensures { result ≡ slice_index_or places.now k None }
{
    match places.get(k) {
        None => None,
        Some(place) => *place,
    }
}

// Notes a place for a number, unless it has one.
fn note(places: &mut Vec<Option<u32>>, k: usize, a: u32)
    requires { k < length places.old.items }
    ensures { places.new.items ≡ noted places.old.items (Some k) a }
{
    let place = match place_at(places, k) {
        None => Some(a),
        Some(first) => Some(first),
    };
    places[k] = place;
}

// Notes an action's place for the text that is its name, where there is one.
fn note_named(texts: &Texts, places: &mut Vec<Option<u32>>, name: &[u8], a: u32)
    requires { length places.old.items ≡ length texts.now }
    ensures { places.new.items ≡ noted places.old.items (cond (is_among name.now texts.now) (Some (number_of texts.now name.now)) None) a }
{
    match texts.number(name) {
        None => {}
        Some(k) => note(places, k as usize, a),
    }
}

// The first actions with the texts' names, by the texts' numbers.
fn places_of(alloc: Global, task: &Task, texts: &Texts) -> Result<Vec<Option<u32>>, NoMemory>
    ensures { IfOk result (λ places. (name : List ℕ) → is_among name texts.now ≡ true → slice_index_or places.items (number_of texts.now name) None ≡ action_named task.now.actions name) }
{
    let mut places = no_places(alloc, texts.len())?;
    for a in 0..task.actions() {
        note_named(
            texts,
            &mut places,
            task.action(ActionId(a)).name.as_slice(),
            a,
        );
    }
    Ok(places)
}

fn found_in(texts: &Texts, places: &[Option<u32>], text: &[u8]) -> Option<ActionId>
    ensures { is_among text.now texts.now ≡ true → result ≡ slice_index_or places.now (number_of texts.now text.now) None }
{
    match texts.number(text) {
        None => None,
        Some(k) => match place_at(places, k as usize) {
            None => None,
            Some(a) => Some(ActionId(a)),
        },
    }
}

/// The actions that calls name, each as `find` tells it. The calls' texts are put into a table once, and the task's
/// actions are walked once.
pub fn calls_of(
    alloc: Global,
    task: &Task,
    calls: &[Call],
) -> Result<Vec<Option<ActionId>>, NoMemory>
    requires { length calls.now < 2 ^ 32 }
    ensures { IfOk result (λ list. list.items ≡ map (λ c. found task.now.actions c) calls.now) }
{
    let texts = texts_of(alloc, calls)?;
    let places = places_of(alloc, task, &texts)?;
    let mut list = Vec::new(alloc);
    for call in calls {
        let text = text_of(alloc, call)?;
        list.push(found_in(&texts, &places, &text))?;
    }
    Ok(list)
}
