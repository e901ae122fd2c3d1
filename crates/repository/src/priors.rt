// Priors: their entries, and the rows of their files.
ghost use Rattle.std.specs.Prelude.{◌≡◌, ◌≤◌, ◌<◌, ◌≢◌, Some, Err, position, IfOk, IfErr, OnOk};
ghost use Rattle.std.specs.Option.{option_map};
ghost use Rattle.ri_base.specs.Faults.{IsOutside};
ghost use Rattle.ri_base.specs.Keeps.{Rose};
ghost use Rattle.store_ends.specs.Files.{Files, GoesOn, IsQuiet, Leaves, SameWhere, with_file};
ghost use Rattle.manifest.specs.PriorFits.{IsPrior};
ghost use Rattle.manifest.specs.Priors.{prior_text};
ghost use Rattle.manifest.specs.declared.manifest.PriorEntry.{PriorEntry};
ghost use Rattle.repository.specs.Names.{prior_name};
ghost use Rattle.repository.specs.Numbers.{IsNewNumber, next_after};
ghost use Rattle.repository.specs.Priors.{IsPriorFault, is_full, is_named, is_same, number_named, with_entry};
ghost use Rattle.repository.specs.Saved.{IsUnlisted};
ghost use Rattle.repository.specs.Stale.{with_old};
ghost use Rattle.repository.specs.Stands.{IsPriorRead};
ghost use Rattle.repository.specs.Writes.{IsOther};

use crate::files::{prior_file, put_file};
use crate::names::prior_name;
use crate::numbers::Numbers;
use crate::stale::note_stale;
use manifest::{PriorEntry, PriorRows, prior_bytes, read_prior};
use ri_base::limits::MAX_PRIORS;
use ri_base::{FileName, Name, NoMemory, SegFault};
use std::alloc::Global;
use std::mem;
use store_ends::Store;

/// The rows of the prior of this entry, read from its file.
pub fn read_rows<T: Store>(
    alloc: Global,
    store: &mut T,
    entry: &PriorEntry,
) -> Result<PriorRows, SegFault>
    ensures rows { (f : Files) → T.files store.old ≡ Some f → IfOk result (λ rows. IsPriorRead (T.files store.old) entry.now (record { name = entry.now.name; table = rows })) }
    ensures fault { (f : Files) → T.files store.old ≡ Some f → IfErr result (IsPriorFault f entry.now.number) }
    ensures quiet { IsQuiet T.files T.layers T.clock T.since T.longest T.held store.old store.new }
    ensures later { T.faults store.old ≤ T.faults store.new }
    ensures store { result ≡ Err SegFault.Store → Rose (T.faults store.old) (T.faults store.new) }
    ensures none { result ≢ Err SegFault.Store → T.faults store.new ≡ T.faults store.old }
{
    match prior_file(alloc, store, entry.number)? {
        Some(bytes) => Ok(read_prior(alloc, &bytes, entry.number)?),
        None => Err(SegFault::Missing {
            file: FileName::Prior(entry.number),
        }),
    }
}

/// The place of the prior of this name.
fn place_of(priors: &[PriorEntry], name: &[u8]) -> Option<usize>
    ensures { result ≡ position (λ e. is_same name.now e.name) priors.now }
{
    priors
        .iter()
        .position(|entry| name == entry.name.as_bytes())
}

/// Whether a prior has this name.
fn is_named(priors: &[PriorEntry], name: &[u8]) -> bool
    ensures { result ≡ is_named priors.now name.now }
{
    priors.iter().any(|entry| name == entry.name.as_bytes())
}

/// Gives a prior the file of another number, and answers the number that it had.
fn renumber(entry: &mut PriorEntry, number: u64) -> u64
    ensures entry { entry.new ≡ record { name = entry.old.name; number = number } }
    ensures number { result ≡ entry.old.number }
{
    mem::replace(&mut entry.number, number)
}

/// Gives the prior of this name the file of this number, and answers the number that it had.
fn put_entry(priors: &mut Vec<PriorEntry>, name: Name, number: u64) -> Result<Option<u64>, NoMemory>
    ensures priors { OnOk result (priors.new.items ≡ with_entry priors.old.items name number) }
    ensures old { IfOk result (λ old. old ≡ number_named priors.old.items name) }
{
    match place_of(priors, name.as_bytes()) {
        Some(place) => Ok(Some(renumber(&mut priors[place], number))),
        None => {
            priors.push(PriorEntry { name, number })?;
            Ok(None)
        }
    }
}

/// Lists the file of this number for the prior of this name. The one that it had is no longer read.
pub fn list_prior(
    stale: &mut Vec<u64>,
    priors: &mut Vec<PriorEntry>,
    name: Name,
    number: u64,
) -> Result<(), NoMemory>
    ensures priors { OnOk result (priors.new.items ≡ with_entry priors.old.items name number) }
    ensures stale { OnOk result (stale.new.items ≡ with_old stale.old.items (number_named priors.old.items name)) }
{
    match put_entry(priors, name, number)? {
        None => Ok(()),
        Some(old) => note_stale(stale, old),
    }
}

/// Whether the name is new and there are as many priors as there may be.
pub fn is_full(priors: &[PriorEntry], name: &Name) -> bool
    ensures { result ≡ is_full priors.now name.now }
{
    !is_named(priors, name.as_bytes()) && priors.len() >= MAX_PRIORS
}

/// Puts the rows into a new file, and answers its number.
#[tactic(auto, using(crate::proofs::NameLemmas::prior_ascii, crate::proofs::NameLemmas::prior_short))]
pub fn put_rows<T: Store>(
    alloc: Global,
    store: &mut T,
    numbers: &mut Numbers,
    rows: &PriorRows,
) -> Result<u64, SegFault>
    ensures new { IfOk result (IsNewNumber numbers.old.next numbers.old.numbers) }
    ensures bounds { IfOk result (λ n. (1 ≤ n) × (n < numbers.new.next)) }
    ensures next { OnOk result (numbers.new.next ≡ next_after numbers.old.next) }
    ensures done { IfOk result (λ n. T.files store.new ≡ option_map (with_file (prior_name n) (Some (prior_text rows.now))) (T.files store.old)) }
    ensures same { SameWhere (IsOther (IsUnlisted numbers.old.numbers)) (T.files store.old) (T.files store.new) }
    ensures stops { Leaves (T.since store.old) (T.since store.new) (SameWhere (IsOther (IsUnlisted numbers.old.numbers)) (T.files store.old)) }
    ensures form { IsPrior rows.now }
    ensures goes_on { GoesOn T.layers T.clock T.longest T.held store.old store.new }
    ensures outside { IfErr result IsOutside }
    ensures later { T.faults store.old ≤ T.faults store.new }
    ensures store { result ≡ Err SegFault.Store → Rose (T.faults store.old) (T.faults store.new) }
    ensures none { result ≢ Err SegFault.Store → T.faults store.new ≡ T.faults store.old }
{
    let _form = rows.rows();
    let bytes = prior_bytes(alloc, rows)?;
    let number = numbers.take()?;
    let name = prior_name(number);
    put_file(store, &name, bytes.as_slice())?;
    Ok(number)
}
