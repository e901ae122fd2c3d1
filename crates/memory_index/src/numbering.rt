// The numbers of terms, and the names of fields.
ghost use Rattle.std.specs.Prelude.{◌≡◌, ◌<◌, ◌≤◌, ℕ, ◌+◌, ◌^◌, Some, length, not, count_by, slice_get, IfOk, OnOk, OnErr, take};
ghost use Rattle.std.specs.Set.{is_member};
ghost use Rattle.std.specs.Str.{bytes_eq};
ghost use Rattle.indexmap.specs.IndexSet.{insert_key};
ghost use Rattle.memory_index.specs.Numbering.{AreNoted, IsNumbering};

use indexmap::IndexSet;
use ri_base::{Name, NoMemory, Term};
use std::alloc::Global;

/// The number of each term, its place among the terms; a new term takes the next place.
pub fn numbered(
    alloc: Global,
    terms: &mut IndexSet<Term>,
    tokens: &[Term],
) -> Result<Vec<u32>, NoMemory>
    requires room { length terms.old.keys + length tokens.now < 2 ^ 32 }
    ensures numbered { IfOk result (λ v. IsNumbering terms.old.keys terms.new.keys tokens.now v.items) }
    ensures kept { take (length terms.old.keys) terms.new.keys ≡ terms.old.keys }
{
    let mut numbers = Vec::with_capacity(alloc, tokens.len())?;
    for t in tokens {
        numbers.push(number_of(alloc, terms, t)?)?;
    }
    Ok(numbers)
}

fn number_of(alloc: Global, terms: &mut IndexSet<Term>, term: &Term) -> Result<u32, NoMemory>
    requires room { length terms.old.keys + 1 < 2 ^ 32 }
    ensures stored { IfOk result (λ n. slice_get terms.new.keys n ≡ Some term.now) }
    ensures keys { OnOk result (terms.new.keys ≡ insert_key bytes_eq terms.old.keys term.now) }
    ensures err { OnErr result (terms.new.keys ≡ terms.old.keys) }
{
    if let Some((n, _)) = terms.get_full(term) {
        return Ok(n as u32);
    }
    let n = terms.len();
    terms.insert(term.clone_in(alloc)?)?;
    Ok(n as u32)
}

/// Puts the names that are new behind the others.
pub fn note_names(alloc: Global, names: &mut IndexSet<Name>, more: &[Name]) -> Result<(), NoMemory>
    ensures noted { OnOk result (AreNoted names.old.keys names.new.keys more.now) }
    ensures kept { take (length names.old.keys) names.new.keys ≡ names.old.keys }
{
    for name in more {
        note_name(alloc, names, name)?;
    }
    Ok(())
}

fn note_name(alloc: Global, names: &mut IndexSet<Name>, name: &Name) -> Result<(), NoMemory>
    ensures keys { OnOk result (names.new.keys ≡ insert_key bytes_eq names.old.keys name.now) }
    ensures err { OnErr result (names.new.keys ≡ names.old.keys) }
{
    if !names.contains(name) {
        names.insert(name.clone_in(alloc)?)?;
    }
    Ok(())
}

/// How many of these names are new.
pub fn count_new(names: &IndexSet<Name>, more: &[Name]) -> usize
    ensures { result ≡ count_by (λ name. not (is_member bytes_eq names.now.keys name)) more.now }
{
    more.iter().filter(|name| !names.contains(*name)).count()
}
