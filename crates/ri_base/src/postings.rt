// What a part of the collection tells of its documents.
ghost use Rattle.std.specs.Prelude.{◌≡◌, ◌<◌, ◌≤◌, ℕ, List, length, All, IfOk, IfErr, Err, OnOk, Option};
ghost use Rattle.std.specs.List.Sorted.{IsStrictlyIncreasing};
ghost use Rattle.ri_base.specs.Collection.{document_at};
ghost use Rattle.ri_base.specs.Documents.{Document, IsDocument};
ghost use Rattle.ri_base.specs.Faults.{IsOutside, TellsDamage};
ghost use Rattle.ri_base.specs.Keeps.{Keeps, Rose};
ghost use Rattle.ri_base.specs.Places.{places};
ghost use Rattle.ri_base.specs.declared.seg_fault.SegFault.{SegFault};
ghost use Rattle.ri_base.specs.declared.limits.TheConstants.{MAX_DOC_TOKENS};

use crate::{Docno, FieldSpan, Positions, SegFault, Term};
use std::alloc::Global;

/// One part of the collection, seen as the list of its documents; a document's id is its place in the list.
///
/// A part that reads files counts the faults of its store. It is `sound` where the files were put as those of one list of
/// documents, however they are read now as long as damage shows; and `intact` where they are read as they were put. `quiet` relates two of its states where the second differs from
/// the first by no more than reading may change. `told` says of a term and a document that the part's files, or what
/// it keeps of them, can be read there, whether the part is sound or not: then no malformed place was passed by. `damage`
/// is the last file that reading found malformed or missing: a call that answers found none, and one that tells damage found this.
pub trait Postings {
    ghost documents: { Self → List Document };

    ghost faults: { Self → ℕ };

    ghost sound: { Self → Type 0 };

    ghost intact: { Self → Type 0 };

    ghost quiet: { Self → Self → Type 0 };

    ghost told: { Self → List ℕ → ℕ → Type 0 };

    ghost damage: { Self → Option SegFault };

    /// How many documents there are.
    fn docs(&self) -> u32
        ensures { result ≡ length (documents self.now) };

    fn docno(&self, id: u32) -> &Docno
        requires { id < length (documents self.now) }
        ensures { result.now ≡ (document_at (documents self.now) id).docno };

    /// How many tokens the document has.
    fn length(&self, id: u32) -> u32
        requires { id < length (documents self.now) }
        ensures exact { result ≡ length (document_at (documents self.now) id).tokens }
        ensures most { result ≤ MAX_DOC_TOKENS };

    /// The fields of the document, by begin, end and name.
    fn spans(&self, id: u32) -> &[FieldSpan]
        requires { id < length (documents self.now) }
        ensures exact { result.now ≡ (document_at (documents self.now) id).fields }
        ensures form { IsDocument (document_at (documents self.now) id).tokens result.now };

    /// The places of the term in the document.
    fn positions(&mut self, alloc: Global, term: &Term, id: u32) -> Result<Positions, SegFault>
        requires { id < length (documents self.old) }

        ensures keeps { Keeps documents faults sound intact quiet self.old self.new }

        // Also of a part that isn't sound, what is told are places of that document.
        ensures rising { IfOk result IsStrictlyIncreasing }
        ensures below { IfOk result
            (All (λ p. p < length (document_at (documents self.old) id).tokens)) }
        ensures told { IfOk result (λ _. told self.old term.now id) }
        ensures undamaged { OnOk result (damage self.new ≡ damage self.old) }
        ensures damaged { IfErr result (TellsDamage (damage self.old) (damage self.new)) }

        ensures exact { sound self.old → IfOk result
            (λ ps. ps ≡ places term.now (document_at (documents self.old) id)) }
        ensures honest { intact self.old → IfErr result IsOutside }
        ensures store { result ≡ Err SegFault.Store → Rose (faults self.old) (faults self.new) };

    // laws
    ghost intact_sound: { (s : Self) → intact s → sound s };

    ghost quiet_same: { (s : Self) → quiet s s };

    ghost quiet_then: { (r s t : Self) → quiet r s → quiet s t → quiet r t };

    // What can be read after reading could be read before.
    ghost told_before: { (r s : Self) (term : List ℕ) (id : ℕ) → quiet r s → told s term id → told r term id };
}
