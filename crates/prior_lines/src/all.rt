// All rows of a source.
ghost use Rattle.std.specs.Prelude.{◌≡◌, ◌++◌, ◌∷◌, [], filter, OnOk, IfOk, IfSome};
ghost use Rattle.read_ahead.specs.Ahead.{Moves};
ghost use Rattle.read_ahead.specs.Causes.{ReadRose, StaysUnlessRead};
ghost use Rattle.prior_lines.specs.Rows.{is_refusal, prior_rows, refusals};

use crate::line::{RowLine, next_row};
use crate::rows::KeptRows;
use line_reader::LineReader;
use read_ahead::InputFault;
use ri_base::NoMemory;
use ri_ends::Source;
use std::alloc::Global;

impl RowLine {
    /// Whether the line is refused.
    pub fn is_refusal(&self) -> bool
        ensures { result ≡ is_refusal self.now }
    {
        match self {
            RowLine::Accepted => false,
            _ => true,
        }
    }
}

/// Puts a line behind the others, where it is refused.
fn note_refusal(refused: &mut Vec<RowLine>, line: RowLine) -> Result<(), NoMemory>
    ensures { OnOk result (refused.new.items ≡ refused.old.items ++ filter is_refusal (line ∷ [])) }
{
    if line.is_refusal() {
        refused.push(line)?;
    }
    Ok(())
}

/// Reads rows to the end of the source. With them come the refusals, in the order of their lines.
pub fn read_rows<S: Source>(
    alloc: Global,
    source: &mut S,
) -> Result<(KeptRows, Vec<RowLine>), InputFault>
    ensures rows { IfOk result (λ found. IfSome (S.left source.old) (λ bytes. found.0 ≡ prior_rows bytes)) }
    ensures refusals { IfOk result (λ found. IfSome (S.left source.old) (λ bytes. found.1.items ≡ refusals bytes)) }
    ensures moves { Moves S.layers S.held S.faults source.old source.new }
    ensures failed { ReadRose result (S.faults source.old) (S.faults source.new) }
    ensures none { StaysUnlessRead result (S.faults source.old) (S.faults source.new) }
{
    let mut lines = LineReader::new(alloc)?;
    let mut kept = KeptRows::new(alloc);
    let mut refused = Vec::new(alloc);
    'rows: while let Some(line) = next_row(alloc, &mut kept, &mut lines, source)? {
        note_refusal(&mut refused, line)?;
    }
    Ok((kept, refused))
}
