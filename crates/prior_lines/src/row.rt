// A row.
ghost use Rattle.std.specs.Prelude.{◌≡◌, ◌<◌, IfOk, IfSome, option_map, codes};
ghost use Rattle.std.specs.Str.{bytes_eq};
ghost use Rattle.ri_base.specs.Ratio.{ratio_of};
ghost use Rattle.ri_base.specs.declared.limits.TheConstants.{PRIOR_LIMIT};
ghost use Rattle.prior_lines.specs.Row.{IsNamed, fraction, ratio, row, row_key, row_seen};

use crate::number::number;
use line_parts::split;
use ri_base::{Docno, Fraction, NoMemory};
use std::alloc::Global;

/// The documents that a row speaks of.
#[derive(Debug, Drop)]
pub enum RowKey {
    Docno(Docno),
    /// Those without a row of their own.
    Rest,
}

/// A row: the fraction of some documents.
#[derive(Debug, Drop)]
pub struct Row {
    pub key: RowKey,
    pub fraction: Fraction,
}

fn is_star(text: &[u8]) -> bool
    ensures { result ≡ bytes_eq text.now (codes "*") }
{
    text == b"*".as_slice()
}

fn read_key(alloc: Global, text: &[u8]) -> Result<Option<RowKey>, NoMemory>
    ensures key { IfOk result (λ key. key ≡ row_key text.now) }
    ensures named { IfOk result (λ key. IfSome key IsNamed) }
{
    if is_star(text) {
        return Ok(Some(RowKey::Rest));
    }
    match Docno::new(alloc, text)? {
        Some(docno) => Ok(Some(RowKey::Docno(docno))),
        None => Ok(None),
    }
}

fn belief(p: u64, q: u64) -> Option<Fraction>
    ensures { option_map ratio_of result ≡ ratio p q }
{
    match Fraction::new(p, q) {
        Ok(fraction) => Some(fraction),
        Err(_) => None,
    }
}

/// The fraction that stands here, where it is one of numbers of at most 18 digits.
#[tactic(auto, unfolding(crate::specs::Row::fraction))]
fn read_fraction(text: &[u8]) -> Option<Fraction>
    ensures value { option_map ratio_of result ≡ fraction text.now }
    ensures small { IfSome result (λ f. f.q < PRIOR_LIMIT) }
{
    let (p, q) = split(b'/', text)?;
    let p = number(p)?;
    let q = number(q)?;
    belief(p, q)
}

/// The row that stands here, where it is one.
#[tactic(auto, unfolding(crate::specs::Row::row))]
pub fn read_row(alloc: Global, text: &[u8]) -> Result<Option<Row>, NoMemory>
    ensures row { IfOk result (λ found. option_map row_seen found ≡ row text.now) }
    ensures named { IfOk result (λ found. IfSome found (λ r. IsNamed r.key)) }
    ensures small { IfOk result (λ found. IfSome found (λ r. r.fraction.q < PRIOR_LIMIT)) }
{
    let Some((key, fraction)) = split(b' ', text) else {
        return Ok(None);
    };
    let Some(fraction) = read_fraction(fraction) else {
        return Ok(None);
    };
    match read_key(alloc, key)? {
        Some(key) => Ok(Some(Row { key, fraction })),
        None => Ok(None),
    }
}
