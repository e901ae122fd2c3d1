// Which documents pass the filters of a query.
ghost use Rattle.std.specs.Prelude.{◌≡◌, ◌<◌, length, map, Err, IfErr, IfOk, OnOk};
ghost use Rattle.std.specs.List.{list_all};
ghost use Rattle.ri_base.specs.Collection.{document_at};
ghost use Rattle.ri_base.specs.Faults.{IsOutside, TellsDamage};
ghost use Rattle.ri_base.specs.Keeps.{Keeps, Rose};
ghost use Rattle.ri_base.specs.Query.{filter_tree};
ghost use Rattle.document_scoring.specs.Candidates.{passes};
ghost use Rattle.document_scoring.specs.Told.{AreFiltersTold, IsFilterTold};

use extent_evaluation::extents_have_one_list;
use extent_walks::ExtentIter;
use ri_base::{Filter, Postings, SegFault};
use std::alloc::Global;

/// Whether a document passes a filter. Of its expression no more than the first extent is asked for.
fn passes<P: Postings>(
    alloc: Global,
    filter: &Filter,
    part: &mut P,
    id: u32,
) -> Result<bool, SegFault>
    requires id { id < length (P.documents part.old) }
    ensures keeps { Keeps P.documents P.faults P.sound P.intact P.quiet part.old part.new }
    ensures exact { P.sound part.old → IfOk result
        (λ b. b ≡ passes (document_at (P.documents part.old) id) (filter_tree filter.now)) }
    ensures told { IfOk result (λ _. IsFilterTold (λ t. P.told part.old t id) (filter_tree filter.now)) }
    ensures honest { P.intact part.old → IfErr result IsOutside }
    ensures undamaged { OnOk result (P.damage part.new ≡ P.damage part.old) }
    ensures damaged { IfErr result (TellsDamage (P.damage part.old) (P.damage part.new)) }
    ensures store { result ≡ Err SegFault.Store → Rose (P.faults part.old) (P.faults part.new) }
{
    extents_have_one_list();
    let mut found = ExtentIter::new(alloc, &filter.expr, part, id)?;
    let first = found.next_extent()?;
    Ok(first.is_some() == filter.keep)
}

/// Whether a document passes all filters. The first one that it doesn't pass ends the test.
pub fn all_pass<P: Postings>(
    alloc: Global,
    filters: &[Filter],
    part: &mut P,
    id: u32,
) -> Result<bool, SegFault>
    requires id { id < length (P.documents part.old) }
    ensures keeps { Keeps P.documents P.faults P.sound P.intact P.quiet part.old part.new }
    ensures exact { P.sound part.old → IfOk result
        (λ b. b ≡ list_all (passes (document_at (P.documents part.old) id)) (map filter_tree filters.now)) }

    // Also of a part that isn't sound, no malformed block is passed by.
    ensures told { IfOk result (AreFiltersTold (λ t. P.told part.old t id) (map filter_tree filters.now)) }

    ensures honest { P.intact part.old → IfErr result IsOutside }
    ensures undamaged { OnOk result (P.damage part.new ≡ P.damage part.old) }
    ensures damaged { IfErr result (TellsDamage (P.damage part.old) (P.damage part.new)) }
    ensures store { result ≡ Err SegFault.Store → Rose (P.faults part.old) (P.faults part.new) }
{
    for filter in filters {
        if !passes(alloc, filter, part, id)? {
            return Ok(false);
        }
    }
    Ok(true)
}
