// Priors of a query.
ghost use Rattle.std.specs.Prelude.{◌≡◌, ◌≤◌, length, map, find, position, IfOk};
ghost use Rattle.std.specs.List.{list_any};
ghost use Rattle.std.specs.Str.{bytes_eq};
ghost use Rattle.ri_base.specs.Query.{belief_tree, belief_trees, weighted_tree, weighted_trees};
ghost use Rattle.query_check.specs.Check.{prior_number, is_unknown, is_length, priors, all_priors, weighted_priors};

use ri_base::{Belief, Name, NoMemory};
use std::alloc::Global;

/// The number of the prior `length`, behind those of the eight names that there may be.
const LENGTH: u8 = 8;

fn is_length(name: &Name) -> bool
    ensures { result ≡ is_length name.now }
{
    name.as_bytes() == b"length".as_slice()
}

/// The place of a name among the priors.
fn place_of(name: &[u8], priors: &[Name]) -> Option<usize>
    ensures { result ≡ position (λ prior. bytes_eq prior name.now) priors.now }
{
    priors.iter().position(|prior| prior.as_bytes() == name)
}

/// Whether a name is among the priors.
fn is_among(name: &[u8], priors: &[Name]) -> bool
    ensures { result ≡ list_any (λ prior. bytes_eq prior name.now) priors.now }
{
    priors.iter().any(|prior| prior.as_bytes() == name)
}

/// The number of a prior: its place among the priors, and 8 for `length`.
#[tactic(auto, using(crate::proofs::Names::place_below), unfolding(crate::specs::Check::prior_number))]
pub(crate) fn prior_number(name: &Name, priors: &[Name]) -> u8
    requires { length priors.now ≤ 8 }
    ensures { result ≡ prior_number priors.now name.now }
{
    if is_length(name) {
        return LENGTH;
    }
    match place_of(name.as_bytes(), priors) {
        Some(place) => place as u8,
        None => LENGTH,
    }
}

/// Whether a prior is neither `length` nor among the priors.
#[tactic(auto, unfolding(crate::specs::Check::is_unknown))]
fn is_unknown(name: &Name, priors: &[Name]) -> bool
    ensures { result ≡ is_unknown priors.now name.now }
{
    !is_length(name) && !is_among(name.as_bytes(), priors)
}

/// The first prior in reading order that is unknown.
#[cycle(priors)]
#[tactic(auto, using(ri_base::proofs::QueryLemmas::belief_tree_laws), unfolding(crate::specs::Check::priors))]
fn unknown_in(alloc: Global, x: &Belief, names: &[Name]) -> Result<Option<Name>, NoMemory>
    ensures { IfOk result (λ found. found ≡ find (is_unknown names.now) (priors (belief_tree x.now))) }
{
    match x {
        Belief::Combine(all) | Belief::Max(all) => first_unknown(alloc, all, names),
        Belief::Weight(all) => unknown_in_weighted(alloc, all, names),
        Belief::Prior(name) if is_unknown(name, names) => Ok(Some(name.clone_in(alloc)?)),
        Belief::Prior(_) | Belief::Leaf(..) => Ok(None),
    }
}

/// The first prior in reading order that is unknown.
#[cycle(priors)]
#[tactic(auto, using(crate::proofs::Walks::priors_found, crate::proofs::Walks::priors_passed, crate::proofs::Walks::priors_end))]
pub(crate) fn first_unknown(
    alloc: Global,
    all: &[Belief],
    names: &[Name],
) -> Result<Option<Name>, NoMemory>
    ensures { IfOk result (λ found. found ≡ find (is_unknown names.now) (all_priors (belief_trees (map belief_tree all.now)))) }
{
    for x in all {
        if let Some(name) = unknown_in(alloc, x, names)? {
            return Ok(Some(name));
        }
    }
    Ok(None)
}

#[cycle(priors)]
#[tactic(auto, using(crate::proofs::Walks::weighted_priors_found, crate::proofs::Walks::weighted_priors_passed, crate::proofs::Walks::weighted_priors_end))]
fn unknown_in_weighted(
    alloc: Global,
    all: &[(u64, Belief)],
    names: &[Name],
) -> Result<Option<Name>, NoMemory>
    ensures { IfOk result (λ found. found ≡ find (is_unknown names.now) (weighted_priors (weighted_trees (map weighted_tree all.now)))) }
{
    for (_, x) in all {
        if let Some(name) = unknown_in(alloc, x, names)? {
            return Ok(Some(name));
        }
    }
    Ok(None)
}
