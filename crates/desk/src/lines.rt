// The lines of replies.
ghost use Rattle.std.specs.Prelude.{◌≡◌, IfOk};
ghost use Rattle.std.specs.Fmt.{decimal};
ghost use Rattle.desk.specs.Lines.{credit_of, extents_text, reply_line, with_count, with_credit};

use crate::Scanned;
use command_pieces::push_extent;
use ri_base::NoMemory;
use std::alloc::Global;

/// `WORD REST`
pub(crate) fn reply_line(alloc: Global, word: &[u8], rest: &[u8]) -> Result<Vec<u8>, NoMemory>
    ensures { IfOk result (λ line. line.items ≡ reply_line word.now rest.now) }
{
    let mut line = word.to_vec(alloc)?;
    line.push(b' ')?;
    line.extend_from_slice(rest)?;
    line.push(b'\n')?;
    Ok(line)
}

/// `WORD COUNT`
pub(crate) fn count_line(alloc: Global, word: &[u8], count: u64) -> Result<Vec<u8>, NoMemory>
    ensures { IfOk result (λ line. line.items ≡ reply_line word.now (decimal count)) }
{
    let digits = count.to_string(alloc)?;
    reply_line(alloc, word, digits.as_bytes())
}

/// `NAME COUNT`
pub(crate) fn with_count(alloc: Global, name: &[u8], count: u64) -> Result<Vec<u8>, NoMemory>
    ensures { IfOk result (λ text. text.items ≡ with_count name.now count) }
{
    let digits = count.to_string(alloc)?;
    let mut text = name.to_vec(alloc)?;
    text.push(b' ')?;
    text.extend_from_slice(digits.as_bytes())?;
    Ok(text)
}

/// `CREDIT of SIZE`
pub(crate) fn credit_of(alloc: Global, credit: u64, size: u64) -> Result<Vec<u8>, NoMemory>
    ensures { IfOk result (λ text. text.items ≡ credit_of credit size) }
{
    let (credit, size) = (credit.to_string(alloc)?, size.to_string(alloc)?);
    let mut text = credit.as_bytes().to_vec(alloc)?;
    text.extend_from_slice(b" of ")?;
    text.extend_from_slice(size.as_bytes())?;
    Ok(text)
}

/// `NAME CREDIT of SIZE`
pub(crate) fn with_credit(
    alloc: Global,
    name: &[u8],
    credit: u64,
    size: u64,
) -> Result<Vec<u8>, NoMemory>
    ensures { IfOk result (λ text. text.items ≡ with_credit name.now credit size) }
{
    let mut text = name.to_vec(alloc)?;
    text.push(b' ')?;
    text.extend_from_slice(&credit_of(alloc, credit, size)?)?;
    Ok(text)
}

/// A line for each extent, and then how many they are.
#[tactic(auto, unfolding(crate::specs::Lines::extents_text))]
pub(crate) fn extents_text(alloc: Global, lines: &Scanned) -> Result<Vec<u8>, NoMemory>
    ensures { IfOk result (λ text. text.items ≡ extents_text lines.now) }
{
    let mut text = Vec::new(alloc);
    for line in lines.as_slice() {
        push_extent(alloc, &mut text, line.0.as_bytes(), line.1)?;
    }
    let last = count_line(alloc, b"scanned", lines.len() as u64)?;
    text.extend_from_slice(&last)?;
    Ok(text)
}
