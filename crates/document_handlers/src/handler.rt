// What a command does with the documents of its input.
ghost use Rattle.std.specs.Prelude.{◌≡◌, IfOk, OnOk, List, Option};
ghost use Rattle.document_handlers.specs.Work.{Work, behind, pieces_in, replies};

use command_pieces::Reply;
use ri_base::NoMemory;
use std::alloc::Global;
use trec_reader::RawDoc;

/// Takes the documents of an input, one behind the other.
pub trait Handler {
    /// What it may be said to do with the next document. Of one that holds a repository this depends on the files that this is read
    /// with.
    ghost does: { Self → Work → Type 0 };

    /// It can take further documents.
    ghost is_whole: { Self → Type 0 };

    /// Takes the next document, and answers what is to be written of it.
    fn take(&mut self, alloc: Global, document: RawDoc) -> Result<Option<Reply>, NoMemory>
        requires whole { is_whole self.old }
        ensures reply { (w : Work) → does self.old w → IfOk result (λ reply. pieces_in reply ≡ replies w document) }
        ensures behind { (w : Work) → does self.old w → OnOk result (does self.new (behind w document)) }
        ensures whole { OnOk result (is_whole self.new) };
}
