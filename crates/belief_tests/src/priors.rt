// What priors of both kinds answer.
use belief_nodes::{BeliefNode, LengthPlug, RowRefused, TablePlug};
use ri_base::{Docno, Fraction};
use std::alloc::Global;
use std::test::Fail;

/// A docno, a number of tokens, and the belief that is settled.
type Settled = (&'static [u8], u32, u64, u64);

/// What a table with the rows 1/3 and 3/4 and the rest 1/2 settles.
static TABLE: [Settled; 4] = [
    (b"d1", 5, 1, 3),
    (b"d2", 5, 3, 4),
    (b"d3", 5, 1, 2),
    (b"d", 5000, 1, 2),
];

/// What is settled by the steps (100, 1/2) and (1000, 1/1) and the rest 1/4.
static LENGTHS: [Settled; 6] = [
    (b"d1", 0, 1, 4),
    (b"d1", 99, 1, 4),
    (b"d1", 100, 1, 2),
    (b"d1", 999, 1, 2),
    (b"d1", 1000, 1, 1),
    (b"d2", 5000, 1, 1),
];

/// What a prior answers to a row.
fn row<N: BeliefNode>(
    alloc: Global,
    prior: &mut N,
    text: &[u8],
    f: Fraction,
) -> Option<Result<(), RowRefused>> {
    let docno = Docno::new(alloc, text).ok()??;
    Some(prior.take_row(alloc, &docno, f))
}

/// Whether a prior takes a row.
fn takes<N: BeliefNode>(alloc: Global, prior: &mut N, text: &[u8], f: Fraction) -> bool {
    matches!(row(alloc, prior, text, f), Some(Ok(())))
}

/// Whether a prior refuses a row as a second one of its docno.
fn is_repeated<N: BeliefNode>(alloc: Global, prior: &mut N, text: &[u8], f: Fraction) -> bool {
    matches!(row(alloc, prior, text, f), Some(Err(RowRefused::Repeated)))
}

/// Whether a prior refuses a row as one that takes none.
fn is_fixed<N: BeliefNode>(alloc: Global, prior: &mut N, text: &[u8], f: Fraction) -> bool {
    matches!(row(alloc, prior, text, f), Some(Err(RowRefused::Fixed)))
}

/// The two numbers of the belief that a prior settles.
fn settled<N: BeliefNode>(
    alloc: Global,
    prior: &mut N,
    text: &[u8],
    len: u32,
) -> Option<(u64, u64)> {
    let docno = Docno::new(alloc, text).ok()??;
    let belief = prior.settle(&docno, len);
    Some((belief.p, belief.q))
}

/// Whether a prior settles these.
fn settles<N: BeliefNode>(alloc: Global, prior: &mut N, cases: &[Settled]) -> bool {
    cases.iter().all(|(text, len, p, q)| settled(alloc, prior, text, *len) == Some((*p, *q)))
}

/// Whether a table takes its rows and the rest.
fn takes_rows(alloc: Global, table: &mut TablePlug) -> bool {
    takes(alloc, table, b"d1", Fraction { p: 1, q: 3 })
        && takes(alloc, table, b"d2", Fraction { p: 3, q: 4 })
        && is_repeated(alloc, table, b"d1", Fraction { p: 1, q: 1 })
        && matches!(table.take_rest(Fraction { p: 1, q: 2 }), Ok(()))
}

#[test]
fn a_table(rt: HostRuntime) -> Result<(), Fail> {
    let mut table = TablePlug::new(rt.alloc())?;
    assert!(rt; table.is_table() && table.greatest() == Fraction { p: 1, q: 1 });
    assert!(rt; takes_rows(rt.alloc(), &mut table));
    assert!(rt; settles(rt.alloc(), &mut table, &TABLE));
    assert!(rt; table.greatest() == Fraction { p: 3, q: 4 });
    Ok(())
}

/// Whether a prior by lengths refuses rows and a rest.
fn takes_none(alloc: Global, lengths: &mut LengthPlug) -> bool {
    is_fixed(alloc, lengths, b"d1", Fraction { p: 1, q: 3 })
        && matches!(
            lengths.take_rest(Fraction { p: 1, q: 3 }),
            Err(RowRefused::Fixed)
        )
}

#[test]
fn lengths(rt: HostRuntime) -> Result<(), Fail> {
    let steps = vec![in rt.alloc();
        (100, Fraction { p: 1, q: 2 }),
        (1000, Fraction { p: 1, q: 1 }),
    ]?;
    let mut lengths = LengthPlug::new(steps, Fraction { p: 1, q: 4 });
    assert!(rt; !lengths.is_table() && lengths.greatest() == Fraction { p: 1, q: 1 });
    assert!(rt; takes_none(rt.alloc(), &mut lengths));
    assert!(rt; settles(rt.alloc(), &mut lengths, &LENGTHS));
    Ok(())
}
