// The white space between documents.
ghost use Rattle.std.specs.Prelude.{◌≡◌, ◌^◌, ◌<◌, ◌≤◌, [], length, IfOk, OnOk};
ghost use Rattle.std.specs.Bool.{OnFalse, OnTrue};
ghost use Rattle.std.specs.Option.{option_map};
ghost use Rattle.std.specs.Io.KnownBytes.{prepend_known, IsAtEnd};
ghost use Rattle.read_ahead.specs.Ahead.{Steps, most_of};
ghost use Rattle.read_ahead.specs.Causes.{ReadRose, StaysUnlessRead};
ghost use Rattle.read_ahead.specs.declared.ahead.TheConstants.{MOST_AHEAD};
ghost use Rattle.trec_reader.specs.Read.{StartsOther, behind_space};

use crate::header::spaces;
use read_ahead::{InputFault, ReadAhead};
use ri_ends::Source;

/// Reads the white space that stands next. The answer is whether a byte stands behind it; else the source has ended.
pub fn skip_space<S: Source>(ahead: &mut ReadAhead, source: &mut S) -> Result<bool, InputFault>
    requires { most_of ahead.old (S.can_give source.old) < 2 ^ 64 }
    ensures rest { OnOk result (prepend_known ahead.new.bytes (S.left source.new) ≡ option_map (behind_space) (prepend_known ahead.old.bytes (S.left source.old))) }
    ensures some { IfOk result (λ found. OnTrue found (StartsOther ahead.new.bytes)) }
    ensures most { length ahead.new.bytes ≤ MOST_AHEAD }
    ensures end { IfOk result (λ found. OnFalse found ((ahead.new.bytes ≡ []) × IsAtEnd (S.left source.new))) }
    ensures steps { Steps S.left S.layers S.held S.faults S.can_give ahead.old ahead.new source.old source.new }
    ensures failed { ReadRose result (S.faults source.old) (S.faults source.new) }
    ensures none { StaysUnlessRead result (S.faults source.old) (S.faults source.new) }
{
    'pieces: loop {
        ahead.advance(spaces(ahead.bytes()));
        if !ahead.bytes().is_empty() {
            return Ok(true);
        }
        if ahead.fill(source)? {
            return Ok(false);
        }
    }
}
