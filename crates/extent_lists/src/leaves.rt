// The extents of a term and of a field's name.
ghost use Rattle.std.specs.Prelude.{◌≡◌, ◌<◌, IfOk, IfErr, Err, length, map, OnOk};
ghost use Rattle.std.specs.List.{All, AllPairs};
ghost use Rattle.ri_base.specs.Collection.{document_at};
ghost use Rattle.ri_base.specs.Documents.{IsBefore};
ghost use Rattle.ri_base.specs.Expression.{word};
ghost use Rattle.ri_base.specs.Faults.{IsOutside, TellsDamage};
ghost use Rattle.ri_base.specs.Keeps.{Keeps, Rose};
ghost use Rattle.extent_lists.specs.Extents.{Ext, IsField};
ghost use Rattle.extent_lists.specs.Rows.{IsAscending, Lists, extent_at};

use ri_base::{Extent, Extents, FieldSpan, Name, NoMemory, Postings, SegFault, Term};
use std::alloc::Global;

/// The extents of the places of a term, each of one token.
fn of_places(alloc: Global, places: &[u32], length: u32) -> Result<Vec<Extent>, NoMemory>
    requires { All (λ p. p < length) places.now }
    ensures { IfOk result (λ v. v.items ≡ map extent_at places.now) }
{
    let mut out = Vec::with_capacity(alloc, places.len())?;
    for p in places {
        out.push(Extent::new(*p, *p + 1))?;
    }
    Ok(out)
}

/// The extents of the fields of this name.
pub fn of_fields(alloc: Global, spans: &[FieldSpan], name: &Name) -> Result<Vec<Extent>, NoMemory>
    requires { AllPairs IsBefore spans.now }
    ensures { IfOk result (λ v. Lists (IsField spans.now name.now) v.items) }
{
    let mut out = Vec::new(alloc);
    for span in spans {
        if span.name() == name {
            out.push(Extent::new(span.begin(), span.end()))?;
        }
    }
    Ok(out)
}

/// The extents of a term.
pub fn of_term<P: Postings>(
    alloc: Global,
    term: &Term,
    postings: &mut P,
    id: u32,
) -> Result<Extents, SegFault>
    requires { id < length (P.documents postings.old) }
    ensures keeps { Keeps P.documents P.faults P.sound P.intact P.quiet postings.old postings.new }
    ensures exact { P.sound postings.old → IfOk result
        (Lists (Ext (word term.now) (document_at (P.documents postings.old) id))) }
    ensures ascending { IfOk result IsAscending }
    ensures told { IfOk result (λ _. P.told postings.old term.now id) }
    ensures honest { P.intact postings.old → IfErr result IsOutside }
    ensures undamaged { OnOk result (P.damage postings.new ≡ P.damage postings.old) }
    ensures damaged { IfErr result (TellsDamage (P.damage postings.old) (P.damage postings.new)) }
    ensures store { result ≡ Err SegFault.Store → Rose (P.faults postings.old) (P.faults postings.new) }
{
    let length = postings.length(id);
    let places = postings.positions(alloc, term, id)?;
    Ok(Extents::of(of_places(alloc, places.as_slice(), length)?))
}
