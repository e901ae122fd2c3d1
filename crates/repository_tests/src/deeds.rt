// What is done with the repository of a store, and what is seen of it.
ghost use Rattle.std.specs.Prelude.{◌≡◌, false, is_some, true, IfSome};
ghost use Rattle.manifest.specs.Entries.{length_name};
ghost use Rattle.repository.specs.Priors.{is_same};

use crate::documents::{doc, docno};
use disk_index::BlockCache;
use holdings::{AddRefusal, Limits};
use manifest::{PriorRows, read_prior};
use repository::{Repository, Turned, merge_whole};
use ri_base::{Name, SegFault};
use std::alloc::Global;
use std::num::NonZeroUsize;
use store_ends::Store;

/// What is done. A document has so many words, at most ten.
#[derive(Clone, Copy)]
pub enum Deed {
    Add(&'static str, usize),
    Delete(&'static str),
    Flush,
    Sweep,
    /// A merge is opened, goes on by so many documents, or is given up.
    Begin,
    Turn(u64),
    GiveUp,
    /// All live documents are merged in one turn.
    Merge,
    /// The prior `home` gets the rows of these bytes.
    Prior(&'static [u8]),
    Live,
}

/// What is answered.
#[derive(Clone, Copy, PartialEq)]
pub enum Told {
    Done,
    Repeated,
    Full,
    Absent,
    /// How many documents are live, or are to be copied.
    Count(u64),
    /// How many documents of all that are to be copied were copied.
    Open(u64, u64),
    /// A merge is open, or none is.
    Refused,
    /// A call of the store failed, or memory is short.
    Failed,
    Unusable,
}

/// What is done, and what is answered.
pub type Row = (Deed, Told);

/// How many documents are live, and the belief of the first row of the first prior.
pub type Seen = (u64, Option<(u64, u64)>);

/// That it is done, or else another answer.
fn done_or(is_done: bool, other: Told) -> Told {
    if is_done { Told::Done } else { other }
}

fn of_add(answer: Result<(), AddRefusal>) -> Told {
    match answer {
        Ok(()) => Told::Done,
        Err(AddRefusal::Repeated { docno: _ }) => Told::Repeated,
        Err(AddRefusal::CollectionFull { docno: _ }) => Told::Full,
        Err(AddRefusal::Memory) => Told::Failed,
    }
}

fn add(alloc: Global, repository: &mut Repository, name: &str, count: usize) -> Told
    requires { repository.old.usable ≡ true }
{
    match doc(alloc, name, count) {
        Some(doc) => of_add(repository.add(alloc, &doc)),
        None => Told::Failed,
    }
}

fn delete(alloc: Global, repository: &mut Repository, name: &str) -> Told
    requires { repository.old.usable ≡ true }
{
    match docno(alloc, name) {
        Some(docno) => done_or(repository.delete(&docno).is_ok(), Told::Absent),
        None => Told::Failed,
    }
}

fn begin(alloc: Global, repository: &mut Repository) -> Told
    requires { repository.old.usable ≡ true }
{
    match repository.begin_merge(alloc) {
        Ok(size) => Told::Count(size),
        Err(_) => Told::Refused,
    }
}

fn of_turn(answer: Result<Turned, SegFault>) -> Told {
    match answer {
        Ok(Turned::Open { credit, size }) => Told::Open(credit, size),
        Ok(Turned::Done) => Told::Done,
        Err(_) => Told::Failed,
    }
}

/// A turn of the open merge, with a cache of its own.
fn turn_open<S: Store>(alloc: Global, store: &mut S, repository: &mut Repository, docs: u64) -> Told
    requires usable { repository.old.usable ≡ true }
    requires open { is_some repository.old.merge ≡ true }
{
    match BlockCache::new(alloc, NonZeroUsize::MIN) {
        Ok(mut cache) => of_turn(repository.merge_turn(alloc, docs, store, &mut cache)),
        Err(_) => Told::Failed,
    }
}

fn turn<S: Store>(alloc: Global, store: &mut S, repository: &mut Repository, docs: u64) -> Told
    requires { repository.old.usable ≡ true }
{
    if repository.merge_open() {
        turn_open(alloc, store, repository, docs)
    } else {
        Told::Refused
    }
}

fn give_up(repository: &mut Repository) -> Told
    requires { repository.old.usable ≡ true }
{
    repository.drop_merge();
    Told::Done
}

fn flush<S: Store>(alloc: Global, store: &mut S, repository: &mut Repository) -> bool
    requires { repository.old.usable ≡ true }
{
    repository.flush(alloc, store).is_ok()
}

fn sweep<S: Store>(alloc: Global, store: &mut S, repository: &mut Repository) -> bool
    requires { repository.old.usable ≡ true }
{
    repository.sweep(alloc, store).is_ok()
}

fn merge<S: Store>(alloc: Global, store: &mut S, repository: &mut Repository) -> bool
    requires { repository.old.usable ≡ true }
{
    !repository.merge_open() && merge_whole(alloc, repository, store).is_ok()
}

/// The name `home`, which isn't `length`.
fn home(alloc: Global) -> Option<Name>
    ensures { IfSome result (λ name. is_same name length_name ≡ false) }
{
    let name = Name::new(alloc, b"home").ok()??;
    if name.as_bytes() == b"length".as_slice() {
        return None;
    }
    Some(name)
}

fn put_rows<S: Store>(
    alloc: Global,
    store: &mut S,
    repository: &mut Repository,
    rows: &PriorRows,
) -> bool
    requires { repository.old.usable ≡ true }
{
    if !repository.is_stored() {
        return false;
    }
    match home(alloc) {
        Some(name) => repository.set_prior(alloc, store, name, rows).is_ok(),
        None => false,
    }
}

fn set_prior<S: Store>(
    alloc: Global,
    store: &mut S,
    repository: &mut Repository,
    bytes: &[u8],
) -> bool
    requires { repository.old.usable ≡ true }
{
    match read_prior(alloc, bytes, 1) {
        Ok(rows) => put_rows(alloc, store, repository, &rows),
        Err(_) => false,
    }
}

fn answer_to<S: Store>(
    alloc: Global,
    store: &mut S,
    repository: &mut Repository,
    deed: Deed,
) -> Told {
    if !repository.usable() {
        return Told::Unusable;
    }
    match deed {
        Deed::Add(name, count) => add(alloc, repository, name, count),
        Deed::Delete(name) => delete(alloc, repository, name),
        Deed::Flush => done_or(flush(alloc, store, repository), Told::Failed),
        Deed::Sweep => done_or(sweep(alloc, store, repository), Told::Failed),
        Deed::Begin => begin(alloc, repository),
        Deed::Turn(docs) => turn(alloc, store, repository, docs),
        Deed::GiveUp => give_up(repository),
        Deed::Merge => done_or(merge(alloc, store, repository), Told::Failed),
        Deed::Prior(bytes) => done_or(set_prior(alloc, store, repository, bytes), Told::Failed),
        Deed::Live => Told::Count(repository.live_count()),
    }
}

/// Whether all these rows are answered so, one behind the other.
fn answers<S: Store>(
    alloc: Global,
    store: &mut S,
    repository: &mut Repository,
    rows: &[Row],
) -> bool {
    for (deed, wanted) in rows {
        if answer_to(alloc, store, repository, *deed) != *wanted {
            return false;
        }
    }
    true
}

fn first_belief(rows: &PriorRows) -> Option<(u64, u64)> {
    let (_, belief) = rows.rows().first()?;
    Some((belief.p, belief.q))
}

/// What is seen of the repository; nothing where it can't be used, or a prior can't be read.
fn seen<S: Store>(alloc: Global, store: &mut S, repository: &Repository) -> Option<Seen> {
    if !repository.usable() {
        return None;
    }
    if repository.priors().is_empty() {
        return Some((repository.live_count(), None));
    }
    let rows = repository.prior_rows(alloc, store, 0).ok()?;
    Some((repository.live_count(), first_belief(&rows)))
}

fn opened<S: Store>(alloc: Global, store: &mut S, limits: Limits) -> Option<Repository> {
    Repository::open(alloc, store, limits).ok()?
}

/// Whether the repository of these files answers all these rows so.
pub fn are_answered<S: Store>(alloc: Global, store: &mut S, limits: Limits, rows: &[Row]) -> bool {
    match opened(alloc, store, limits) {
        Some(mut repository) => answers(alloc, store, &mut repository, rows),
        None => false,
    }
}

/// What is seen of the repository of these files behind these rows; nothing where one goes otherwise, or the files can't be opened. Parts
/// have two documents at most, and a hundred documents and tokens may be held.
pub fn seen_behind<S: Store>(alloc: Global, store: &mut S, rows: &[Row]) -> Option<Seen> {
    let limits = Limits {
        part_docs: 2,
        held_docs: 100,
        held_tokens: 100,
    };
    let mut repository = opened(alloc, store, limits)?;
    if answers(alloc, store, &mut repository, rows) {
        seen(alloc, store, &repository)
    } else {
        None
    }
}
