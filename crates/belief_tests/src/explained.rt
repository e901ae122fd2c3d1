// The text that explains a result, at a document of one word and a prior.
ghost use Rattle.std.specs.Prelude.{IfSome};
ghost use Rattle.ranked_output.specs.Marks.{IsScale};

use belief_nodes::LeafCount;
use ranked_output::{Explained, LeafShown, explain_lines};
use ri_base::{
    Docno, Extent, ExtentExpr, Extents, Fraction, Fractions, Hit, LeafStats, List, Name, Term,
};
use std::alloc::Global;

const TEXT: &str = "result 1 d2 0 1
scale 1
leaf 1 \"a\".(title) tf 1 len 1 cf 2 total 3 belief 10/12
at 0 1
prior 2 home belief 1/2
score -0.263034
";

fn word(alloc: Global) -> Option<ExtentExpr> {
    Some(ExtentExpr::Word(Term::new(alloc, b"a").ok()??))
}

fn first_token(alloc: Global) -> Option<Extents> {
    let mut extents = Extents::new(alloc);
    extents.push(Extent::new(0, 1)).ok()?;
    Some(extents)
}

/// The leaf of a word in its title.
fn leaf_of(expr: ExtentExpr, context: Name, extents: Extents, belief: Fraction) -> LeafShown {
    LeafShown::Extents {
        expr,
        context: Some(context),
        count: LeafCount { tf: 1, len: 1 },
        stats: LeafStats { cf: 2, total: 3 },
        extents,
        belief,
    }
}

/// The leaf of the word in a context.
fn leaf_in(alloc: Global, context: Name) -> Option<LeafShown> {
    let belief = Fraction::new(10, 12).ok()?;
    let extents = first_token(alloc)?;
    Some(leaf_of(word(alloc)?, context, extents, belief))
}

fn leaf(alloc: Global) -> Option<LeafShown> {
    leaf_in(alloc, Name::new(alloc, b"title").ok()??)
}

fn prior(alloc: Global) -> Option<LeafShown> {
    let belief = Fraction::new(1, 2).ok()?;
    let name = Name::new(alloc, b"home").ok()??;
    Some(LeafShown::Prior { name, belief })
}

fn hit(alloc: Global) -> Option<Hit> {
    Some(Hit {
        docno: Docno::new(alloc, b"d2").ok()??,
        begin: 0,
        end: 1,
        key: 289_209_387_719,
        fractions: Fractions::new(alloc),
    })
}

fn leaves(alloc: Global) -> Option<List<LeafShown>> {
    let mut leaves = List::new(alloc);
    leaves.push(leaf(alloc)?).ok()?;
    leaves.push(prior(alloc)?).ok()?;
    Some(leaves)
}

/// What explains the result.
fn explanation(alloc: Global) -> Option<Explained>
    ensures { IfSome result (λ explained. IsScale explained.scale) }
{
    let hit = hit(alloc)?;
    Some(Explained {
        rank: 1,
        hit,
        scale: 1,
        leaves: leaves(alloc)?,
    })
}

/// The text that explains the result.
fn text(alloc: Global) -> Option<List<u8>> {
    explain_lines(alloc, &explanation(alloc)?).ok()
}

/// Whether it is this one.
fn is_text(alloc: Global, wanted: &[u8]) -> bool {
    match text(alloc) {
        Some(text) => text.as_slice() == wanted,
        None => false,
    }
}

#[test]
fn explained(rt: HostRuntime) {
    assert!(rt; is_text(rt.alloc(), TEXT.as_bytes()));
}
