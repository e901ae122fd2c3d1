// The bytes of a prior's rows.
ghost use Rattle.std.specs.Prelude.{◌≡◌, ◌<◌, ◌++◌, ◌∷◌, ◌^◌, [], Ok, length, map, option_map, IfOk, OnOk};
ghost use Rattle.std.specs.Int.{w32, w64, to_le_bytes};
ghost use Rattle.std.specs.List.{flat_map};
ghost use Rattle.ri_base.specs.Ratio.{ratio_of};
ghost use Rattle.manifest.specs.Priors.{prior_file, prior_magic, prior_text, row_of, spelled_belief, spelled_rest, spelled_row, spelled_rows};

use crate::prior::PriorRows;
use ri_base::file_fields::{put_docno, put_u32, put_u64};
use ri_base::{Bytes, Docno, Fraction, NoMemory};
use std::alloc::Global;

fn put_belief(out: &mut Vec<u8>, belief: Fraction) -> Result<(), NoMemory>
    ensures { OnOk result (out.new.items ≡ out.old.items ++ spelled_belief (ratio_of belief)) }
{
    put_u64(out, belief.p)?;
    put_u64(out, belief.q)
}

fn put_rest(out: &mut Vec<u8>, rest: Option<Fraction>) -> Result<(), NoMemory>
    ensures { OnOk result (out.new.items ≡ out.old.items ++ spelled_rest (option_map ratio_of rest)) }
{
    match rest {
        None => {
            out.push(0)?;
            Ok(())
        }
        Some(belief) => {
            out.push(1)?;
            put_belief(out, belief)
        }
    }
}

fn put_row(out: &mut Vec<u8>, row: &(Docno, Fraction)) -> Result<(), NoMemory>
    ensures { OnOk result (out.new.items ≡ out.old.items ++ spelled_row (row_of row.now)) }
{
    put_docno(out, &row.0)?;
    put_belief(out, row.1)
}

fn put_rows(out: &mut Vec<u8>, rows: &[(Docno, Fraction)]) -> Result<(), NoMemory>
    requires { length rows.now < 2 ^ 32 }
    ensures { OnOk result (out.new.items ≡ out.old.items ++ spelled_rows (map row_of rows.now)) }
{
    put_u32(out, rows.len() as u32)?;
    for row in rows {
        put_row(out, row)?;
    }
    Ok(())
}

#[tactic(auto, using(crate::proofs::PriorLemmas::few_rows))]
fn text_of(alloc: Global, rows: &PriorRows) -> Result<Bytes, NoMemory>
    ensures { IfOk result (λ b. b ≡ prior_text rows.now) }
{
    let mut out = Vec::new(alloc);
    out.extend_from_slice(b"indripri".as_slice())?;
    put_rest(&mut out, rows.rest())?;
    put_rows(&mut out, rows.rows())?;
    Ok(Bytes::of(out))
}

/// The bytes of the rows.
#[tactic(auto, using(crate::proofs::PriorLaws::table_again))]
pub fn prior_bytes(alloc: Global, rows: &PriorRows) -> Result<Bytes, NoMemory>
    ensures spelled { IfOk result (λ b. b ≡ prior_text rows.now) }
    // What is written is read again as these rows.
    ensures again { IfOk result (λ b. prior_file b ≡ Ok rows.now) }
{
    let _form = rows.rows();
    text_of(alloc, rows)
}
