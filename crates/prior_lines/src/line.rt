// What is said of a line.
ghost use Rattle.std.specs.Prelude.{Some, true, OnOk, ◌≡◌, ◌^◌, ◌<◌, IfOk, IsErrOf, OnSome};
ghost use Rattle.std.specs.Option.{option_map};
ghost use Rattle.std.specs.Io.KnownBytes.{prepend_known};
ghost use Rattle.read_ahead.specs.Causes.{ReadRose, StaysUnlessRead};
ghost use Rattle.read_ahead.specs.Ahead.{Steps, most_of};
ghost use Rattle.line_reader.specs.Texts.{placed, trimmed};
ghost use Rattle.ri_base.specs.Text.{is_docno};
ghost use Rattle.prior_lines.specs.Row.{IsNamed, row_seen};
ghost use Rattle.prior_lines.specs.Rows.{docno_step, line_step, outcome_at, row_answer, row_step, rest_step};
ghost use Rattle.ri_base.specs.Ratio.{ratio_of};
ghost use Rattle.ri_base.specs.declared.limits.TheConstants.{PRIOR_LIMIT};

use crate::row::{Row, RowKey, read_row};
use crate::rows::KeptRows;
use line_reader::{Line, LineReader};
use read_ahead::InputFault;
use ri_base::{Docno, Fraction, NoMemory};
use ri_ends::Source;
use std::alloc::Global;

/// What is said of a line that has more than white space.
#[derive(Debug, Drop)]
pub enum RowLine {
    /// Its row is kept.
    Accepted,
    /// The line at this place is no row.
    BadRow { place: u64 },
    LineTooLong { place: u64 },
    /// This docno has a row.
    RepeatedRow(Docno),
    /// The documents without a row have a fraction.
    RepeatedRest,
    /// As many docnos as can have a row have one, and the one at this place isn't among them.
    TooManyRows { place: u64 },
}

fn take_rest(kept: &mut KeptRows, fraction: Fraction) -> RowLine
    requires { fraction.q < PRIOR_LIMIT }
    ensures { (kept.new, result) ≡ rest_step kept.old (ratio_of fraction) }
{
    if kept.has_rest() {
        return RowLine::RepeatedRest;
    }
    kept.set_rest(fraction);
    RowLine::Accepted
}

fn take_docno(
    kept: &mut KeptRows,
    place: u64,
    docno: Docno,
    fraction: Fraction,
) -> Result<RowLine, NoMemory>
    requires named { is_docno docno ≡ true }
    requires small { fraction.q < PRIOR_LIMIT }
    ensures { IfOk result (λ said. (kept.new, said) ≡ docno_step kept.old place docno (ratio_of fraction)) }
{
    if kept.has_row(&docno) {
        return Ok(RowLine::RepeatedRow(docno));
    }
    if kept.is_full() {
        return Ok(RowLine::TooManyRows { place });
    }
    kept.push(docno, fraction)?;
    Ok(RowLine::Accepted)
}

fn take_row(kept: &mut KeptRows, place: u64, row: Row) -> Result<RowLine, NoMemory>
    requires named { IsNamed row.key }
    requires small { row.fraction.q < PRIOR_LIMIT }
    ensures { IfOk result (λ said. (kept.new, said) ≡ row_step kept.old place (Some (row_seen row))) }
{
    let Row { key, fraction } = row;
    match key {
        RowKey::Rest => Ok(take_rest(kept, fraction)),
        RowKey::Docno(docno) => take_docno(kept, place, docno, fraction),
    }
}

/// Takes the line that was read last.
fn take_line(
    alloc: Global,
    kept: &mut KeptRows,
    lines: &LineReader,
    line: Line,
) -> Result<RowLine, NoMemory>
    ensures { IfOk result (λ said. (kept.new, said) ≡ line_step kept.old (placed line (trimmed lines.now.text))) }
{
    let place = line.place;
    if line.is_too_long {
        return Ok(RowLine::LineTooLong { place });
    }
    match read_row(alloc, lines.trimmed())? {
        Some(row) => take_row(kept, place, row),
        None => Ok(RowLine::BadRow { place }),
    }
}

/// Takes the next line that has more than white space, or none at the end of the input. After an `Err` what is kept
/// can only be dropped.
pub fn next_row<S: Source>(
    alloc: Global,
    kept: &mut KeptRows,
    lines: &mut LineReader,
    source: &mut S,
) -> Result<Option<RowLine>, InputFault>
    requires { most_of lines.old.ahead (S.can_give source.old) < 2 ^ 64 }
    ensures rows { IfOk result (λ found. option_map (outcome_at kept.old lines.old.ahead.offset) (prepend_known lines.old.ahead.bytes (S.left source.old))
        ≡ option_map (row_answer found kept.new lines.new.ahead.offset) (prepend_known lines.new.ahead.bytes (S.left source.new))) }
    ensures steps { Steps S.left S.layers S.held S.faults S.can_give lines.old.ahead lines.new.ahead source.old source.new }
    ensures failed { ReadRose result (S.faults source.old) (S.faults source.new) }
    ensures none { StaysUnlessRead result (S.faults source.old) (S.faults source.new) }
    ensures moves { IfOk result (λ found. OnSome found (lines.old.ahead.offset < lines.new.ahead.offset)) }
{
    match lines.next_text(source)? {
        Some(line) => Ok(Some(take_line(alloc, kept, lines, line)?)),
        None => Ok(None),
    }
}
