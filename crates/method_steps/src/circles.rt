ghost use Rattle.std.specs.Prelude.{◌≡◌, ◌<◌, ◌++◌, ◌∷◌, [], ℕ, true, false, length, map, replicate, slice_index_or, slice_set, IfOk};
ghost use Rattle.method_steps.specs.Slots.{lead_at, is_on_circle};
ghost use Rattle.method_steps.specs.Circles.{next_of, first_mark, unseen_at, walked_at, circle_at, AreMarks, AreCircles, IsWalk, OneMore};

use crate::leads::{Lead, lead_at};
use src_text::Mem;
use std::alloc::Global;

/// What is known of a place while circles are looked for.
#[derive(Clone, Copy)]
enum Mark {
    /// No walk has come here.
    Unseen,
    /// The walk from this place has come here.
    Walked(usize),
    /// No walk is needed.
    Done,
}

/// For each of them, whether its own way comes back to it.
pub(crate) fn circles_of(alloc: Global, leads: &[Lead]) -> Mem<Vec<bool>>
    ensures { IfOk result (λ circles. (place : ℕ) → slice_index_or circles.items place false ≡ is_on_circle leads.now place) }
{
    let mut marks = first_marks(alloc, leads)?;
    let mut circles = Vec::new(alloc);
    circles.resize(leads.len(), false)?;
    for start in 0..leads.len() {
        if let Some(at) = walk(leads, &mut marks, start) {
            note_circle(leads, &mut circles, at);
        }
    }
    Ok(circles)
}

fn first_marks(alloc: Global, leads: &[Lead]) -> Mem<Vec<Mark>>
    ensures { IfOk result (λ marks. marks.items ≡ map first_mark leads.now) }
{
    let mut marks = Vec::new(alloc);
    let mut rest = leads;
    while let [lead, more @ ..] = rest {
        marks.push(match lead {
            Lead::Gone => Mark::Done,
            _ => Mark::Unseen,
        })?;
        rest = more;
    }
    Ok(marks)
}

// Walks from a place until the way ends or comes to what was seen before, and says where it has met itself.
fn walk(leads: &[Lead], marks: &mut Vec<Mark>, start: usize) -> Option<usize>
    requires { AreMarks leads.now start marks.old.items }
    ensures { IsWalk leads.now start marks.old.items marks.new.items result }
{
    let mut at = start;
    'walk: while is_unseen(marks.as_slice(), at) {
        marks[at] = Mark::Walked(start);
        match next_place(leads, at) {
            Some(next) => at = next,
            None => return None,
        }
    }
    if is_walked(marks.as_slice(), start, at) {
        Some(at)
    } else {
        None
    }
}

// Notes the circle that a place is on.
fn note_circle(leads: &[Lead], circles: &mut Vec<bool>, on: usize)
    requires long { length circles.old.items ≡ length leads.now }
    requires circle { is_on_circle leads.now on ≡ true }
    requires circles { AreCircles leads.now circles.old.items }
    ensures long { length circles.new.items ≡ length leads.now }
    ensures more { OneMore leads.now on circles.old.items circles.new.items }
{
    let mut at = on;
    'around: while is_new(circles.as_slice(), at) {
        circles[at] = true;
        match next_place(leads, at) {
            Some(next) => at = next,
            None => return,
        }
    }
}

// What a place is an alias of.
fn next_place(leads: &[Lead], place: usize) -> Option<usize>
    ensures { result ≡ next_of (lead_at leads.now place) }
{
    match lead_at(leads, place) {
        Lead::Here(next) => Some(next),
        _ => None,
    }
}

fn is_unseen(marks: &[Mark], place: usize) -> bool
    ensures value { result ≡ unseen_at marks.now place }
    ensures within { result ≡ true → place < length marks.now }
{
    if place < marks.len() {
        match marks[place] {
            Mark::Unseen => true,
            _ => false,
        }
    } else {
        false
    }
}

fn is_walked(marks: &[Mark], start: usize, place: usize) -> bool
    ensures { result ≡ walked_at start marks.now place }
{
    if place < marks.len() {
        match marks[place] {
            Mark::Walked(from) => from == start,
            _ => false,
        }
    } else {
        false
    }
}

// Whether a place of the circles isn't noted yet.
fn is_new(circles: &[bool], place: usize) -> bool
    ensures within { result ≡ true → place < length circles.now }
    ensures new { result ≡ true → circle_at circles.now place ≡ false }
    ensures noted { result ≡ false → place < length circles.now → circle_at circles.now place ≡ true }
{
    place < circles.len() && !circles[place]
}
