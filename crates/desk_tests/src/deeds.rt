// What is done with a desk, by numbers.
use std::alloc::{AllocError, Global};

/// An event. Documents, names and texts of queries go by their numbers.
#[derive(Clone, Copy)]
pub enum Deed {
    Add(usize),
    Delete(usize),
    Flush,
    Merge,
    Turn(usize),
    Open { name: usize, k: usize, text: usize },
    Step { name: usize, docs: usize },
    Show(usize),
    Explain { name: usize, rank: usize },
    Scan(usize),
    Close(usize),
    End,
}

/// The words of the documents, by their numbers.
static DOCUMENTS: [&str; 7] = ["a", "a b", "b b c", "c", "a a c", "b c", "c a"];

/// The texts of queries: a word, and behind the words the same with the prior.
static TEXTS: [&str; 6] = [
    "a",
    "b",
    "c",
    "a #prior(home)",
    "b #prior(home)",
    "c #prior(home)",
];

/// The words of a document.
pub fn words_of(number: usize) -> &'static str {
    DOCUMENTS[number % 7]
}

/// The word of a text.
pub fn word_of(text: usize) -> &'static str {
    TEXTS[text % 3]
}

/// Whether a text has the prior beside its word.
pub fn has_prior(text: usize) -> bool {
    text % 6 >= 3
}

/// Puts a text behind the others, in which the numbers stand for the `#`, each for one.
pub fn put(
    alloc: Global,
    out: &mut String,
    text: &str,
    numbers: &[usize],
) -> Result<(), AllocError> {
    let mut numbers = numbers.iter();
    for (place, part) in text.split('#').enumerate() {
        if place > 0
            && let Some(number) = numbers.next()
        {
            out.push_str(&number.to_string(alloc)?)?;
        }
        out.push_str(part)?;
    }
    Ok(())
}

/// Puts a text and the end of its line behind the others.
pub fn put_end(out: &mut String, text: &str) -> Result<(), AllocError> {
    out.push_str(text)?;
    out.push('\n')
}

/// Puts the line of a deed behind the others.
pub fn put_deed(alloc: Global, out: &mut String, deed: Deed) -> Result<(), AllocError> {
    match deed {
        Deed::Add(number) => {
            put(alloc, out, "> add d# ", &[number])?;
            put_end(out, words_of(number))
        }
        Deed::Delete(number) => put(alloc, out, "> delete d#\n", &[number]),
        Deed::Flush => put(alloc, out, "> flush\n", &[]),
        Deed::Merge => put(alloc, out, "> merge\n", &[]),
        Deed::Turn(docs) => put(alloc, out, "> turn #\n", &[docs]),
        Deed::Open { name, k, text } => {
            put(alloc, out, "> open q# # ", &[name, k])?;
            put_end(out, TEXTS[text % 6])
        }
        Deed::Step { name, docs } => put(alloc, out, "> step q# #\n", &[name, docs]),
        Deed::Show(name) => put(alloc, out, "> show q#\n", &[name]),
        Deed::Explain { name, rank } => put(alloc, out, "> explain q# #\n", &[name, rank]),
        Deed::Scan(text) => {
            put(alloc, out, "> scan ", &[])?;
            put_end(out, word_of(text))
        }
        Deed::Close(name) => put(alloc, out, "> close q#\n", &[name]),
        Deed::End => put(alloc, out, "> end\n", &[]),
    }
}

/// Numbers that look as if by chance.
#[derive(Drop)]
pub struct Chance {
    pub state: u64,
}

impl Chance {
    /// A number below `below`, and 0 where that is 0.
    fn below(&mut self, below: usize) -> usize {
        self.state = self
            .state
            .wrapping_mul(6_364_136_223_846_793_005)
            .wrapping_add(1_442_695_040_888_963_407);
        let high = (self.state >> 33) as usize;
        if below == 0 { 0 } else { high % below }
    }

    /// The next deed, which isn't the end. Queries have so many names.
    pub fn deed(&mut self, names: usize) -> Deed {
        let name = self.below(names);
        let few = self.below(3).saturating_add(1);
        let number = self.below(7);
        match self.below(names.saturating_add(13)) {
            0 | 1 | 2 | 3 => Deed::Add(number),
            4 | 5 => Deed::Delete(number),
            6 => Deed::Flush,
            7 => Deed::Merge,
            8 | 9 => Deed::Turn(few),
            10 | 11 => Deed::Step { name, docs: few },
            12 => Deed::Show(name),
            13 => Deed::Explain { name, rank: few },
            14 => Deed::Scan(number),
            15 => Deed::Close(name),
            _ => Deed::Open {
                name,
                k: few,
                text: number,
            },
        }
    }
}
