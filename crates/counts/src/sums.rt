// How often an expression occurs in the documents of a snapshot, and in how many of their tokens.
ghost use Rattle.std.specs.Prelude.{◌≡◌, ◌<◌, ◌≤◌, ◌+◌, ◌*◌, ◌/◌, ℕ, Option, option_copied, sum_by, Err, IfErr, IfOk, OnOk};
ghost use Rattle.ri_base.specs.Collection.{document_at, token_count};
ghost use Rattle.ri_base.specs.Expression.{EachWord, expr_tree};
ghost use Rattle.ri_base.specs.Faults.{IsOutside, TellsDamage};
ghost use Rattle.ri_base.specs.Keeps.{Rose};
ghost use Rattle.ri_base.specs.declared.limits.TheConstants.{MAX_HELD_TOKENS};
ghost use Rattle.store_ends.specs.Files.{Files};
ghost use Rattle.disk_index.specs.Cache.{IsCacheBacked};
ghost use Rattle.disk_index.specs.Parts.{IsFileOf, IsPartBacked, IsReadableOf, reads, size, source_of, IsPartIntact};
ghost use Rattle.disk_index.specs.Snapshots.{AreBacked, IsFileAmong, IsSnapshot, live, live_in};
ghost use Rattle.counts.specs.PartSums.{living, sum_first};
ghost use Rattle.counts.specs.Reading.{IsFaultOf, OnlyReads};
ghost use Rattle.counts.specs.Sums.{AreBounded, counted_tokens, occurrences, sums};
ghost use Rattle.counts.specs.Told.{ArePartsTold, IsLiveTold, IsPartTold};

use crate::lengths::total_of;
use crate::occurrences::occurrences;
use crate::presence::may_occur;
use disk_index::{BlockCache, MarkedPart, Part, PartReader, Snapshot};
use ri_base::{ExtentExpr, LeafStats, Name, SegFault};
use std::alloc::Global;
use store_ends::Store;

/// How often the expression occurs in a document of a part.
fn in_document<T: Store>(
    alloc: Global,
    expr: &ExtentExpr,
    context: Option<&Name>,
    part: &Part,
    store: &mut T,
    cache: &mut BlockCache,
    id: u32,
) -> Result<u32, SegFault>
    requires { id < size (source_of part.now) }
    ensures exact { IsPartBacked (T.files store.old) (source_of part.now) → IsCacheBacked (T.files store.old) cache.old
        → IfOk result (λ n. n ≡ occurrences (expr_tree expr.now) (option_copied context.entry) (document_at (reads (T.files store.old) (source_of part.now)) id)) }
    ensures few { IfOk result (λ n. n ≤ counted_tokens (option_copied context.entry) (document_at (reads (T.files store.old) (source_of part.now)) id)) }
    ensures told { IfOk result (λ _. EachWord (λ t. IsReadableOf (T.files store.old) cache.old (source_of part.now) t id) (expr_tree expr.now)) }
    ensures honest { IsPartIntact (T.files store.old) (source_of part.now) → IsCacheBacked (T.files store.old) cache.old → IfErr result IsOutside }
    ensures undamaged { OnOk result (cache.new.damage ≡ cache.old.damage) }
    ensures damaged { IfErr result (TellsDamage cache.old.damage cache.new.damage) }
    ensures reads { OnlyReads T.files T.layers T.clock T.since T.longest T.held T.faults (IsFileOf (source_of part.now)) store.old store.new cache.old cache.new }
    ensures store { result ≡ Err SegFault.Store → Rose (T.faults store.old) (T.faults store.new) }
{
    let mut reader = PartReader::new(part, store, cache);
    occurrences(alloc, expr, context, &mut reader, id)
}

/// The same, where the document is live.
fn in_live_document<T: Store>(
    alloc: Global,
    expr: &ExtentExpr,
    context: Option<&Name>,
    marked: &MarkedPart,
    store: &mut T,
    cache: &mut BlockCache,
    id: u32,
) -> Result<u32, SegFault>
    requires { id < size marked.now.source }
    ensures exact { IsPartBacked (T.files store.old) marked.now.source → IsCacheBacked (T.files store.old) cache.old
        → IfOk result (λ n. n ≡ living (occurrences (expr_tree expr.now) (option_copied context.entry)) (T.files store.old) marked.now id) }
    ensures few { IfOk result (λ n. n ≤ living (counted_tokens (option_copied context.entry)) (T.files store.old) marked.now id) }
    ensures told { IfOk result (λ _. IsLiveTold (T.files store.old) cache.old (expr_tree expr.now) marked.now id) }
    ensures honest { IsPartIntact (T.files store.old) marked.now.source → IsCacheBacked (T.files store.old) cache.old → IfErr result IsOutside }
    ensures undamaged { OnOk result (cache.new.damage ≡ cache.old.damage) }
    ensures damaged { IfErr result (TellsDamage cache.old.damage cache.new.damage) }
    ensures reads { OnlyReads T.files T.layers T.clock T.since T.longest T.held T.faults (IsFileOf marked.now.source) store.old store.new cache.old cache.new }
    ensures store { result ≡ Err SegFault.Store → Rose (T.faults store.old) (T.faults store.new) }
{
    if marked.is_marked(id) {
        return Ok(0);
    }
    in_document(alloc, expr, context, marked.part(), store, cache, id)
}

/// How often the expression occurs in the live documents of a part with the ids from `64 * range` on, 64 at most. No document
/// is looked at where it can't occur by the terms that the part may have there.
fn in_range<T: Store>(
    alloc: Global,
    expr: &ExtentExpr,
    context: Option<&Name>,
    marked: &MarkedPart,
    store: &mut T,
    cache: &mut BlockCache,
    range: u32,
) -> Result<u64, SegFault>
    requires range { 64 * range < size marked.now.source }
    requires short { (told : Option Files) → token_count (reads told marked.now.source) ≤ MAX_HELD_TOKENS }
    ensures exact { IsPartBacked (T.files store.old) marked.now.source → IsCacheBacked (T.files store.old) cache.old
        → IfOk result (λ n. sum_first (occurrences (expr_tree expr.now) (option_copied context.entry)) (T.files store.old) marked.now (64 * range) + n
        ≡ sum_first (occurrences (expr_tree expr.now) (option_copied context.entry)) (T.files store.old) marked.now (64 * range + 64)) }
    ensures few { IfOk result (λ n. sum_first (counted_tokens (option_copied context.entry)) (T.files store.old) marked.now (64 * range) + n
        ≤ sum_first (counted_tokens (option_copied context.entry)) (T.files store.old) marked.now (64 * range + 64)) }
    ensures told { IfOk result
        (λ _. (id : ℕ) → id < size marked.now.source → id / 64 ≡ range → IsLiveTold (T.files store.old) cache.old (expr_tree expr.now) marked.now id) }
    ensures honest { IsPartIntact (T.files store.old) marked.now.source → IsCacheBacked (T.files store.old) cache.old → IfErr result IsOutside }
    ensures undamaged { OnOk result (cache.new.damage ≡ cache.old.damage) }
    ensures damaged { IfErr result (TellsDamage cache.old.damage cache.new.damage) }
    ensures reads { OnlyReads T.files T.layers T.clock T.since T.longest T.held T.faults (IsFileOf marked.now.source) store.old store.new cache.old cache.new }
    ensures store { result ≡ Err SegFault.Store → Rose (T.faults store.old) (T.faults store.new) }
{
    let part = marked.part();
    if !may_occur(expr, part, range) {
        return Ok(0);
    }
    let docs = part.docs();
    let first = 64 * range;
    let last = first + (docs - first).min(64);
    let mut count = 0;
    for id in first..last {
        let found = in_live_document(alloc, expr, context, marked, store, cache, id)?;
        count += u64::from(found);
    }
    Ok(count)
}

/// How often the expression occurs in the live documents of a part.
fn in_part<T: Store>(
    alloc: Global,
    expr: &ExtentExpr,
    context: Option<&Name>,
    marked: &MarkedPart,
    store: &mut T,
    cache: &mut BlockCache,
) -> Result<u64, SegFault>
    requires { (told : Option Files) → token_count (reads told marked.now.source) ≤ MAX_HELD_TOKENS }
    ensures exact { IsPartBacked (T.files store.old) marked.now.source → IsCacheBacked (T.files store.old) cache.old
        → IfOk result (λ n. n ≡ sum_by (occurrences (expr_tree expr.now) (option_copied context.entry)) (live_in (T.files store.old) marked.now)) }
    ensures few { IfOk result (λ n. n ≤ sum_by (counted_tokens (option_copied context.entry)) (live_in (T.files store.old) marked.now)) }
    ensures told { IfOk result (λ _. IsPartTold (T.files store.old) cache.old (expr_tree expr.now) marked.now) }
    ensures honest { IsPartIntact (T.files store.old) marked.now.source → IsCacheBacked (T.files store.old) cache.old → IfErr result IsOutside }
    ensures undamaged { OnOk result (cache.new.damage ≡ cache.old.damage) }
    ensures damaged { IfErr result (TellsDamage cache.old.damage cache.new.damage) }
    ensures reads { OnlyReads T.files T.layers T.clock T.since T.longest T.held T.faults (IsFileOf marked.now.source) store.old store.new cache.old cache.new }
    ensures store { result ≡ Err SegFault.Store → Rose (T.faults store.old) (T.faults store.new) }
{
    let ranges = marked.part().docs().div_ceil(64);
    let mut count = 0;
    for range in 0..ranges {
        let found = in_range(alloc, expr, context, marked, store, cache, range)?;
        count += found;
    }
    Ok(count)
}

/// How often the expression occurs in the live documents of all parts.
fn in_parts<T: Store>(
    alloc: Global,
    expr: &ExtentExpr,
    context: Option<&Name>,
    parts: &[MarkedPart],
    store: &mut T,
    cache: &mut BlockCache,
) -> Result<u64, SegFault>
    requires { IsSnapshot parts.now }
    ensures exact { AreBacked (T.files store.old) parts.now → IsCacheBacked (T.files store.old) cache.old
        → IfOk result (λ n. n ≡ sum_by (occurrences (expr_tree expr.now) (option_copied context.entry)) (live (T.files store.old) parts.now)) }
    ensures few { IfOk result (λ n. n ≤ sum_by (counted_tokens (option_copied context.entry)) (live (T.files store.old) parts.now)) }
    ensures told { IfOk result (λ _. ArePartsTold (T.files store.old) cache.old (expr_tree expr.now) parts.now) }
    ensures fault { IfErr result (IsFaultOf (T.files store.old) parts.now cache.old) }
    ensures reads { OnlyReads T.files T.layers T.clock T.since T.longest T.held T.faults (IsFileAmong parts.now) store.old store.new cache.old cache.new }
    ensures store { result ≡ Err SegFault.Store → Rose (T.faults store.old) (T.faults store.new) }
    ensures undamaged { OnOk result (cache.new.damage ≡ cache.old.damage) }
    ensures damaged { IfErr result (TellsDamage cache.old.damage cache.new.damage) }
{
    let mut count = 0;
    for marked in parts {
        let found = in_part(alloc, expr, context, marked, store, cache)?;
        count += found;
    }
    Ok(count)
}

/// The sums of the expression over the documents of a snapshot.
pub fn sums_of<T: Store>(
    alloc: Global,
    expr: &ExtentExpr,
    context: Option<&Name>,
    snapshot: &Snapshot,
    store: &mut T,
    cache: &mut BlockCache,
) -> Result<LeafStats, SegFault>
    ensures exact { AreBacked (T.files store.old) snapshot.now → IsCacheBacked (T.files store.old) cache.old
        → IfOk result (λ s. s ≡ sums (live (T.files store.old) snapshot.now) (expr_tree expr.now) (option_copied context.entry)) }
    ensures range { IfOk result (λ s. AreBounded s) }

    // Whatever the files have, the blocks of the terms were told for each live document, so no malformed one is passed by.
    ensures told { IfOk result (λ _. ArePartsTold (T.files store.old) cache.old (expr_tree expr.now) snapshot.now) }

    ensures fault { IfErr result (IsFaultOf (T.files store.old) snapshot.now cache.old) }
    ensures reads { OnlyReads T.files T.layers T.clock T.since T.longest T.held T.faults (IsFileAmong snapshot.now) store.old store.new cache.old cache.new }
    ensures store { result ≡ Err SegFault.Store → Rose (T.faults store.old) (T.faults store.new) }
    ensures undamaged { OnOk result (cache.new.damage ≡ cache.old.damage) }
    ensures damaged { IfErr result (TellsDamage cache.old.damage cache.new.damage) }
{
    let cf = in_parts(alloc, expr, context, snapshot.parts(), store, cache)?;
    let total = total_of(context, snapshot);
    Ok(LeafStats { cf, total })
}
