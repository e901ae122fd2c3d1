// How many tokens of the documents of a snapshot count.
ghost use Rattle.std.specs.Prelude.{◌≡◌, ◌<◌, ◌≤◌, Option, Some, option_copied, sum_by};
ghost use Rattle.ri_base.specs.Collection.{document_at};
ghost use Rattle.ri_base.specs.declared.limits.TheConstants.{MAX_DOC_TOKENS, MAX_HELD_TOKENS};
ghost use Rattle.store_ends.specs.Files.{Files};
ghost use Rattle.disk_index.specs.Parts.{reads, size, source_of};
ghost use Rattle.disk_index.specs.Snapshots.{IsSnapshot, live, live_in};
ghost use Rattle.counts.specs.PartSums.{living};
ghost use Rattle.counts.specs.Sums.{counted_tokens};

use disk_index::{MarkedPart, Part, Snapshot};
use field_extents::covered;
use ri_base::{Extent, Name};

/// How many tokens of the document lie in fields of the name.
fn covered_in(part: &Part, name: &Name, id: u32) -> u32
    requires { id < size (source_of part.now) }
    ensures exact { (told : Option Files) → result ≡ counted_tokens (Some name.now) (document_at (reads told (source_of part.now)) id) }
    ensures most { result ≤ MAX_DOC_TOKENS }
{
    let tokens = part.length(id);
    // a window has a token, so that a document without one is told apart
    if tokens == 0 {
        return 0;
    }
    covered(part.spans(id), name, Extent::new(0, tokens))
}

/// The same, where the document is live.
fn covered_in_live(marked: &MarkedPart, name: &Name, id: u32) -> u32
    requires { id < size marked.now.source }
    ensures exact { (told : Option Files) → result ≡ living (counted_tokens (Some name.now)) told marked.now id }
    ensures most { result ≤ MAX_DOC_TOKENS }
{
    if marked.is_marked(id) {
        return 0;
    }
    covered_in(marked.part(), name, id)
}

/// How many tokens of the live documents of a part lie in fields of the name.
fn covered_in_part(marked: &MarkedPart, name: &Name) -> u64
    ensures { (told : Option Files) → result ≡ sum_by (counted_tokens (Some name.now)) (live_in told marked.now) }
{
    let mut count = 0;
    for id in 0..marked.part().docs() {
        count += u64::from(covered_in_live(marked, name, id));
    }
    count
}

/// How many tokens of the live documents of all parts lie in fields of the name.
fn covered_in_all(parts: &[MarkedPart], name: &Name) -> u64
    requires { IsSnapshot parts.now }
    ensures exact { (told : Option Files) → result ≡ sum_by (counted_tokens (Some name.now)) (live told parts.now) }
    ensures most { result ≤ MAX_HELD_TOKENS }
{
    let mut count = 0;
    for marked in parts {
        count += covered_in_part(marked, name);
    }
    count
}

/// How many tokens of the documents of a snapshot count: all of them, or those that lie in fields of a name.
pub fn total_of(context: Option<&Name>, snapshot: &Snapshot) -> u64
    ensures exact { (told : Option Files) → result ≡ sum_by (counted_tokens (option_copied context.entry)) (live told snapshot.now) }
    ensures most { result ≤ MAX_HELD_TOKENS }
{
    match context {
        None => snapshot.token_count(),
        Some(name) => covered_in_all(snapshot.parts(), name),
    }
}
