// The rows of the priors that a repository keeps.
ghost use Rattle.std.specs.Prelude.{◌≡◌, ◌≤◌, Some, Err, true, false, length, map, IfErr, IfOk, OnOk, List};
ghost use Rattle.std.specs.List.{AllZip};
ghost use Rattle.ri_base.specs.Faults.{IsOutside};
ghost use Rattle.ri_base.specs.Keeps.{Rose};
ghost use Rattle.ri_base.specs.Ratio.{ratio_of};
ghost use Rattle.store_ends.specs.Files.{Files, IsQuiet};
ghost use Rattle.belief_nodes.specs.Priors.{has_row, no_prior, with_rest, with_row};
ghost use Rattle.manifest.specs.declared.manifest.PriorEntry.{PriorEntry};
ghost use Rattle.repository.specs.Stands.{Collection, IsPriorRead, Prior};
ghost use Rattle.repository.specs.States.{IsBacked, ReadsAs};
ghost use Rattle.desk.specs.Priors.{IsPriorsFault, kept_prior, priors_with, run_priors};

use belief_nodes::{BeliefNode, RowRefused};
use manifest::{PriorEntry, PriorRows};
use repository::Repository;
use ri_base::{Docno, Fraction, Name, NoMemory, SegFault};
use std::alloc::{AllocError, Global};
use store_ends::Store;

/// Gives a table one row more, of a docno that has none.
fn take_row(
    alloc: Global,
    plug: &mut Box<dyn BeliefNode>,
    row: &(Docno, Fraction),
) -> Result<(), NoMemory>
    requires table { (meaning plug.old).is_table ≡ true }
    requires new { has_row (meaning plug.old) row.now.0 ≡ false }
    ensures { OnOk result (meaning plug.new ≡ with_row (meaning plug.old) row.now.0 (ratio_of row.now.1)) }
{
    match plug.take_row(alloc, &row.0, row.1) {
        Ok(()) => Ok(()),
        Err(RowRefused::Memory) => Err(AllocError),
        Err(RowRefused::Repeated) => unreachable!(),
        Err(RowRefused::Fixed) => unreachable!(),
    }
}

/// Gives a table the fraction of the documents that have no row.
fn take_rest(plug: &mut Box<dyn BeliefNode>, rest: Fraction)
    requires table { (meaning plug.old).is_table ≡ true }
    ensures { meaning plug.new ≡ with_rest (meaning plug.old) (ratio_of rest) }
{
    match plug.take_rest(rest) {
        Ok(()) => {}
        Err(_) => unreachable!(),
    }
}

/// Gives a table without rows those of a prior.
fn take_rows(
    alloc: Global,
    plug: &mut Box<dyn BeliefNode>,
    rows: &PriorRows,
) -> Result<(), NoMemory>
    requires empty { meaning plug.old ≡ no_prior }
    ensures { OnOk result (meaning plug.new ≡ kept_prior rows.now) }
{
    for row in rows.rows() {
        take_row(alloc, plug, row)?;
    }
    if let Some(rest) = rows.rest() {
        take_rest(plug, rest);
    }
    Ok(())
}

/// Gives the plugs the rows of a repository's priors, each to the one of its place.
pub fn take_priors<T: Store>(
    alloc: Global,
    repository: &Repository,
    plugs: &mut [Box<dyn BeliefNode>],
    store: &mut T,
) -> Result<(), SegFault>
    requires usable { repository.now.usable ≡ true }
    requires plugs { map (λ plug. meaning plug) plugs.old ≡ run_priors }
    ensures priors { (c : Collection) → ReadsAs (T.files store.old) repository.now c → OnOk result (map (λ plug. meaning plug) plugs.new ≡ priors_with c.priors) }

    // Whatever the files are: the file of each prior was read by its grammar.
    ensures listed { (f : Files) → T.files store.old ≡ Some f → OnOk result
        ((ps : List Prior) × AllZip (IsPriorRead (T.files store.old)) repository.now.priors ps × (map (λ plug. meaning plug) plugs.new ≡ priors_with ps)) }
    ensures nine { length plugs.new ≡ 9 }
    ensures honest { IsBacked (T.files store.old) repository.now → IfErr result IsOutside }
    ensures fault { (f : Files) → T.files store.old ≡ Some f → IfErr result (IsPriorsFault f repository.now.priors) }
    ensures quiet { IsQuiet T.files T.layers T.clock T.since T.longest T.held store.old store.new }
    ensures later { T.faults store.old ≤ T.faults store.new }
    ensures store { result ≡ Err SegFault.Store → Rose (T.faults store.old) (T.faults store.new) }
{
    let count = repository.priors().len();
    for number in 0..count {
        let rows = repository.prior_rows(alloc, store, number as u32)?;
        take_rows(alloc, &mut plugs[number], &rows)?;
    }
    Ok(())
}

/// The names of priors, in the order of the manifest.
pub fn names_of(alloc: Global, priors: &[PriorEntry]) -> Result<Vec<Name>, NoMemory>
    ensures { IfOk result (λ names. names.items ≡ map (λ (e : PriorEntry). e.name) priors.now) }
{
    let mut names = Vec::with_capacity(alloc, priors.len())?;
    for entry in priors {
        names.push(entry.name.clone_in(alloc)?)?;
    }
    Ok(names)
}
