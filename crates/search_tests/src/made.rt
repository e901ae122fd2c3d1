// The words of documents that are made by their numbers. Collections have five shapes in turn.
ghost use Rattle.std.specs.Prelude.{◌<◌, ◌≤◌, length, IfSome};

use ri_base::{Term, Terms};
use std::alloc::Global;

/// How many documents a collection has.
pub const SIZE: u32 = 2000;

/// How a collection's documents differ in their lengths, and in how many of their words are searched for.
#[derive(Clone, Copy)]
enum Shape {
    /// There are seven different documents, all as long.
    Alike,
    /// Both vary, in no order.
    Mixed,
    /// Each document is as long as the one before, or longer.
    Growing,
    /// Some stretches of documents have most of the words.
    Early,
    /// One in fifty has most of the words, and the others have none.
    Rare,
}

/// The words that are searched for, as often as they come.
static WORDS: [&str; 8] = ["a", "a", "a", "b", "b", "c", "c", "e"];

/// The next number of a sequence without visible order.
fn next(state: u64) -> u64 {
    state
        .wrapping_mul(6_364_136_223_846_793_005)
        .wrapping_add(1_442_695_040_888_963_407)
}

fn shape_of(number: u32) -> Shape {
    match number / SIZE % 5 {
        0 => Shape::Alike,
        1 => Shape::Mixed,
        2 => Shape::Growing,
        3 => Shape::Early,
        _ => Shape::Rare,
    }
}

/// How many words a document has, and how many of sixteen of these are searched for, nearly.
fn measures_of(shape: Shape, number: u32, state: u64) -> (u64, u64) {
    let place = number % SIZE;
    match shape {
        Shape::Alike => (9, 8),
        Shape::Mixed => (4 + (state >> 33) % 28, (state >> 40) % 8),
        Shape::Growing => (4 + u64::from(place / 32), 4),
        Shape::Early => (12, if place % 400 < 40 { 12 } else { 1 }),
        Shape::Rare => (20, if place % 50 == 7 { 14 } else { 0 }),
    }
}

/// What the words of a document are drawn by.
fn seed_of(shape: Shape, number: u32) -> u64 {
    let place = match shape {
        Shape::Alike => number % 7,
        _ => number % SIZE,
    };
    next(next(u64::from(number / SIZE * SIZE) + u64::from(place)))
}

/// A word that is searched for, in some of sixteen cases, else another one.
fn word(state: u64, share: u64) -> &'static str {
    if (state >> 33) % 16 >= share {
        return "x";
    }
    WORDS[((state >> 40) % 8) as usize]
}

/// The words of the document of a number, at most a hundred.
pub fn made_terms(alloc: Global, number: u32) -> Option<Terms>
    ensures { IfSome result (λ terms. length terms ≤ 100) }
{
    let shape = shape_of(number);
    let mut state = seed_of(shape, number);
    let (words, share) = measures_of(shape, number, state);
    let mut terms = Terms::new(alloc);
    for _ in 0..words {
        state = next(state);
        let text = word(state, share);
        terms.push(Term::new(alloc, text.as_bytes()).ok()??).ok()?;
    }
    if terms.len() <= 100 {
        Some(terms)
    } else {
        None
    }
}
