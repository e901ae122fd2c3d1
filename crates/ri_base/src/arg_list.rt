// The words of a command line.
ghost use Rattle.std.specs.Prelude.{◌≡◌, ◌↔◌, [], ◌∷◌, ◌++◌, length, OnOk, OnErr, IsTrue, slice_get, option_map};

use crate::NoMemory;
use std::alloc::Global;
use std::marker::Model;

/// The words of a command line, seen as the list of their texts.
#[derive(Drop)]
pub struct ArgList {
    alloc: Global,
    words: Vec<String>,
}

impl Model for ArgList {
    ghost use Rattle.std.specs.Prelude.{ℕ, List, map, string_bytes};

    ghost Value = { List (List ℕ) };

    ghost view = { λ a. map (λ word. string_bytes word) a.words.items };
}

impl ArgList {
    /// No words yet. What is pushed later is taken from this allocator.
    pub fn new(alloc: Global) -> ArgList
        ensures { result ≡ [] }
    {
        ArgList {
            alloc,
            words: Vec::new(alloc),
        }
    }

    /// Puts a word behind the others.
    pub fn push(&mut self, word: &str) -> Result<(), NoMemory>
        ensures ok { OnOk result (self.new ≡ self.old ++ word.now ∷ []) }
        ensures err { OnErr result (self.new ≡ self.old) }
    {
        let word = word.to_string(self.alloc)?;
        self.words.push(word)?;
        Ok(())
    }

    pub fn len(&self) -> usize
        ensures { result ≡ length self.now }
    {
        self.words.len()
    }

    pub fn is_empty(&self) -> bool
        ensures { IsTrue result ↔ (self.now ≡ []) }
    {
        self.words.is_empty()
    }

    /// The word at this index, counted from 0.
    pub fn get(&self, index: usize) -> Option<&str>
        ensures { option_map (λ word. word.now) result ≡ slice_get self.now index }
    {
        self.words.get(index).map(|word| word.as_str())
    }
}
