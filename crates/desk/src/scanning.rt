// The extents of an expression in the live documents of parts.
ghost use Rattle.std.specs.Prelude.{◌≡◌, ◌<◌, ◌++◌, ◌+◌, List, Err, IfErr, IfOk, OnOk};
ghost use Rattle.ri_base.specs.Collection.{document_at};
ghost use Rattle.ri_base.specs.Documents.{Document};
ghost use Rattle.ri_base.specs.Expression.{expr_tree};
ghost use Rattle.ri_base.specs.Faults.{IsOutside, TellsDamage};
ghost use Rattle.ri_base.specs.Keeps.{Rose};
ghost use Rattle.extent_evaluation.specs.Listed.{extent_list};
ghost use Rattle.disk_index.specs.Cache.{IsCacheBacked};
ghost use Rattle.disk_index.specs.Parts.{IsFileOf, IsPartBacked, IsPartIntact, reads, size, source_of};
ghost use Rattle.disk_index.specs.Snapshots.{AreBacked, AreIntact, IsFileAmong, live, live_in};
ghost use Rattle.counts.specs.Reading.{OnlyReads};
ghost use Rattle.ranker.specs.Passed.{live_before};
ghost use Rattle.desk.specs.Scanning.{extents_in, lines_of};

use crate::Scanned;
use disk_index::{BlockCache, MarkedPart, Part, PartReader};
use extent_evaluation::{extents, extents_have_one_list};
use ri_base::{Docno, ExtentExpr, Extents, NoMemory, SegFault};
use std::alloc::Global;
use store_ends::Store;

/// The extents of the expression in a document of a part, by begin and then end.
fn extents_of<T: Store>(
    alloc: Global,
    expr: &ExtentExpr,
    part: &Part,
    store: &mut T,
    cache: &mut BlockCache,
    id: u32,
) -> Result<Extents, SegFault>
    requires { id < size (source_of part.now) }
    ensures exact { IsPartBacked (T.files store.old) (source_of part.now) → IsCacheBacked (T.files store.old) cache.old
        → IfOk result (λ found. found ≡ extent_list (expr_tree expr.now) (document_at (reads (T.files store.old) (source_of part.now)) id)) }
    ensures honest { IsPartIntact (T.files store.old) (source_of part.now) → IsCacheBacked (T.files store.old) cache.old → IfErr result IsOutside }
    ensures undamaged { OnOk result (cache.new.damage ≡ cache.old.damage) }
    ensures damaged { IfErr result (TellsDamage cache.old.damage cache.new.damage) }
    ensures reads { OnlyReads T.files T.layers T.clock T.since T.longest T.held T.faults (IsFileOf (source_of part.now)) store.old store.new cache.old cache.new }
    ensures store { result ≡ Err SegFault.Store → Rose (T.faults store.old) (T.faults store.new) }
{
    extents_have_one_list();
    let mut reader = PartReader::new(part, store, cache);
    extents(alloc, expr, &mut reader, id)
}

/// Puts a line for each extent behind the others.
fn put_lines(
    alloc: Global,
    lines: &mut Scanned,
    docno: &Docno,
    found: &Extents,
) -> Result<(), NoMemory>
    ensures { OnOk result (lines.new ≡ lines.old ++ lines_of docno.now found.now) }
{
    for extent in found.as_slice() {
        let docno = docno.clone_in(alloc)?;
        lines.push((docno, *extent))?;
    }
    Ok(())
}

/// The lines of a document, where it is live.
fn put_document<T: Store>(
    alloc: Global,
    lines: &mut Scanned,
    expr: &ExtentExpr,
    marked: &MarkedPart,
    store: &mut T,
    cache: &mut BlockCache,
    id: u32,
) -> Result<(), SegFault>
    requires { id < size marked.now.source }
    ensures exact { IsPartBacked (T.files store.old) marked.now.source → IsCacheBacked (T.files store.old) cache.old → OnOk result ((docs : List Document)
        → lines.old ≡ extents_in (expr_tree expr.now) (docs ++ live_before (T.files store.old) marked.now id)
        → lines.new ≡ extents_in (expr_tree expr.now) (docs ++ live_before (T.files store.old) marked.now (id + 1))) }
    ensures honest { IsPartIntact (T.files store.old) marked.now.source → IsCacheBacked (T.files store.old) cache.old → IfErr result IsOutside }
    ensures undamaged { OnOk result (cache.new.damage ≡ cache.old.damage) }
    ensures damaged { IfErr result (TellsDamage cache.old.damage cache.new.damage) }
    ensures reads { OnlyReads T.files T.layers T.clock T.since T.longest T.held T.faults (IsFileOf marked.now.source) store.old store.new cache.old cache.new }
    ensures store { result ≡ Err SegFault.Store → Rose (T.faults store.old) (T.faults store.new) }
{
    let part = marked.part();
    if marked.is_marked(id) {
        return Ok(());
    }
    let found = extents_of(alloc, expr, part, store, cache, id)?;
    put_lines(alloc, lines, part.docno(id), &found)?;
    Ok(())
}

/// The lines of a part's live documents.
fn put_part<T: Store>(
    alloc: Global,
    lines: &mut Scanned,
    expr: &ExtentExpr,
    marked: &MarkedPart,
    store: &mut T,
    cache: &mut BlockCache,
) -> Result<(), SegFault>
    ensures exact { IsPartBacked (T.files store.old) marked.now.source → IsCacheBacked (T.files store.old) cache.old → OnOk result ((docs : List Document)
        → lines.old ≡ extents_in (expr_tree expr.now) docs → lines.new ≡ extents_in (expr_tree expr.now) (docs ++ live_in (T.files store.old) marked.now)) }
    ensures honest { IsPartIntact (T.files store.old) marked.now.source → IsCacheBacked (T.files store.old) cache.old → IfErr result IsOutside }
    ensures undamaged { OnOk result (cache.new.damage ≡ cache.old.damage) }
    ensures damaged { IfErr result (TellsDamage cache.old.damage cache.new.damage) }
    ensures reads { OnlyReads T.files T.layers T.clock T.since T.longest T.held T.faults (IsFileOf marked.now.source) store.old store.new cache.old cache.new }
    ensures store { result ≡ Err SegFault.Store → Rose (T.faults store.old) (T.faults store.new) }
{
    for id in 0..marked.part().docs() {
        put_document(alloc, lines, expr, marked, store, cache, id)?;
    }
    Ok(())
}

/// The lines of the live documents of parts, in their order.
pub(crate) fn scan<T: Store>(
    alloc: Global,
    expr: &ExtentExpr,
    parts: &[MarkedPart],
    store: &mut T,
    cache: &mut BlockCache,
) -> Result<Scanned, SegFault>
    ensures exact { AreBacked (T.files store.old) parts.now → IsCacheBacked (T.files store.old) cache.old
        → IfOk result (λ lines. lines ≡ extents_in (expr_tree expr.now) (live (T.files store.old) parts.now)) }
    ensures honest { AreIntact (T.files store.old) parts.now → IsCacheBacked (T.files store.old) cache.old → IfErr result IsOutside }
    ensures undamaged { OnOk result (cache.new.damage ≡ cache.old.damage) }
    ensures damaged { IfErr result (TellsDamage cache.old.damage cache.new.damage) }
    ensures reads { OnlyReads T.files T.layers T.clock T.since T.longest T.held T.faults (IsFileAmong parts.now) store.old store.new cache.old cache.new }
    ensures store { result ≡ Err SegFault.Store → Rose (T.faults store.old) (T.faults store.new) }
{
    let mut lines = Scanned::new(alloc);
    for marked in parts {
        put_part(alloc, &mut lines, expr, marked, store, cache)?;
    }
    Ok(lines)
}
