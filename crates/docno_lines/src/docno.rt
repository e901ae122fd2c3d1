// Docnos, one on each line.
ghost use Rattle.std.specs.Prelude.{◌≡◌, ◌^◌, ◌<◌, IfOk, OnOk, OnSome, map};
ghost use Rattle.std.specs.Option.{option_map};
ghost use Rattle.std.specs.Io.KnownBytes.{prepend_known};
ghost use Rattle.read_ahead.specs.Ahead.{Steps, most_of};
ghost use Rattle.read_ahead.specs.Causes.{ReadRose, StaysUnlessRead};
ghost use Rattle.docno_lines.specs.Docnos.{docno_answer, docno_line, docnos_at};
ghost use Rattle.line_reader.specs.Texts.{placed, trimmed};

use line_reader::{Line, LineReader};
use read_ahead::InputFault;
use ri_base::{Docno, NoMemory};
use ri_ends::Source;
use std::alloc::Global;

/// A line of the input of `delete` that has more than white space.
#[derive(Debug, Drop)]
pub enum DocnoLine {
    Docno(Docno),
    /// The line at this place is no docno.
    BadEvent { place: u64 },
    LineTooLong { place: u64 },
}

/// What the line says that was read last.
fn docno_line(alloc: Global, lines: &LineReader, line: Line) -> Result<DocnoLine, NoMemory>
    ensures { IfOk result (λ d. d ≡ docno_line (placed line (trimmed lines.now.text))) }
{
    let place = line.place;
    if line.is_too_long {
        return Ok(DocnoLine::LineTooLong { place });
    }
    match Docno::new(alloc, lines.trimmed())? {
        Some(docno) => Ok(DocnoLine::Docno(docno)),
        None => Ok(DocnoLine::BadEvent { place }),
    }
}

/// The next line, or none at the end of the input.
pub fn next_docno<S: Source>(
    alloc: Global,
    lines: &mut LineReader,
    source: &mut S,
) -> Result<Option<DocnoLine>, InputFault>
    requires { most_of lines.old.ahead (S.can_give source.old) < 2 ^ 64 }
    ensures docnos { IfOk result (λ found. option_map (docnos_at lines.old.ahead.offset) (prepend_known lines.old.ahead.bytes (S.left source.old))
        ≡ option_map (docno_answer found lines.new.ahead.offset) (prepend_known lines.new.ahead.bytes (S.left source.new))) }
    ensures steps { Steps S.left S.layers S.held S.faults S.can_give lines.old.ahead lines.new.ahead source.old source.new }
    ensures failed { ReadRose result (S.faults source.old) (S.faults source.new) }
    ensures none { StaysUnlessRead result (S.faults source.old) (S.faults source.new) }
    ensures moves { IfOk result (λ found. OnSome found (lines.old.ahead.offset < lines.new.ahead.offset)) }
{
    match lines.next_text(source)? {
        Some(line) => Ok(Some(docno_line(alloc, lines, line)?)),
        None => Ok(None),
    }
}
