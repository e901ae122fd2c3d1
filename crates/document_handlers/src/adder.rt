// The documents that are added to a repository.
ghost use Rattle.std.specs.Prelude.{◌≡◌, Ok, true, IfOk, OnOk, Option};
ghost use Rattle.ri_base.specs.Documents.{Document};
ghost use Rattle.store_ends.specs.Files.{Files};
ghost use Rattle.holdings.specs.declared.limits.Limits.{Limits};
ghost use Rattle.repository.specs.Stands.{Collection};
ghost use Rattle.repository.specs.States.{IsBacked, ReadsAs};
ghost use Rattle.document_handlers.specs.Addition.{added, added_text, addition, collection_with};
ghost use Rattle.document_handlers.specs.Work.{adding};

use crate::handler::Handler;
use command_pieces::Reply;
use holdings::AddRefusal;
use refusals::{CollectionKind, Refusal, reply_of};
use repository::Repository;
use ri_base::{Doc, NoMemory};
use std::alloc::{AllocError, Global};
use tokens::{TokenRefusal, doc_of};
use trec_reader::RawDoc;

fn added_text(alloc: Global, doc: &Doc) -> Result<Vec<u8>, NoMemory>
    ensures { IfOk result (λ text. text.items ≡ added_text doc.now) }
{
    let length = doc.len().to_string(alloc)?;
    let mut text = b"added ".to_vec(alloc)?;
    text.extend_from_slice(doc.docno().as_bytes())?;
    text.push(b' ')?;
    text.extend_from_slice(length.as_bytes())?;
    text.push(b'\n')?;
    Ok(text)
}

/// Adds documents to a repository.
#[derive(Drop)]
pub struct Adder {
    repository: Repository,
}

impl Adder {
    pub fn new(repository: Repository) -> Adder
        requires { repository.usable ≡ true }
        ensures does { (told : Option Files) (c : Collection) → ReadsAs told repository c → IsBacked told repository → ⟦<Adder as Handler>⟧.does result (adding told repository.held.limits c) }
        ensures whole { ⟦<Adder as Handler>⟧.is_whole result }
    {
        Adder { repository }
    }

    /// The repository with the documents that were added.
    pub fn into_repository(self) -> Repository
        requires { ⟦<Adder as Handler>⟧.is_whole self }
        ensures usable { result.usable ≡ true }
        ensures reads { (told : Option Files) (limits : Limits) (c : Collection) → ⟦<Adder as Handler>⟧.does self (adding told limits c) → ReadsAs told result c × IsBacked told result × (result.held.limits ≡ limits) }
    {
        self.repository
    }

    /// Adds a document behind the others, or refuses it.
    fn add(&mut self, alloc: Global, doc: &Doc) -> Result<Reply, NoMemory>
        requires { self.old.repository.usable ≡ true }
        ensures reply { (told : Option Files) (c : Collection) → ReadsAs told self.old.repository c → IfOk result (λ reply. reply ≡ added (addition self.old.repository.held.limits c (Ok doc.now))) }
        ensures reads { (told : Option Files) (c : Collection) → ReadsAs told self.old.repository c → OnOk result (ReadsAs told self.new.repository (collection_with c (addition self.old.repository.held.limits c (Ok doc.now)))) }
        ensures backed { (told : Option Files) → IsBacked told self.old.repository → IsBacked told self.new.repository }
        ensures limits { OnOk result (self.new.repository.held.limits ≡ self.old.repository.held.limits) }
        ensures usable { self.new.repository.usable ≡ true }
    {
        match self.repository.add(alloc, doc) {
            Ok(()) => Ok(Reply::told(added_text(alloc, doc)?)),
            Err(AddRefusal::Repeated { docno }) => {
                let kind = CollectionKind::Repeated;
                reply_of(alloc, &Refusal::Collection { kind, docno })
            }
            Err(AddRefusal::CollectionFull { docno }) => {
                let kind = CollectionKind::CollectionFull;
                reply_of(alloc, &Refusal::Collection { kind, docno })
            }
            Err(AddRefusal::Memory) => Err(AllocError),
        }
    }
}

impl Handler for Adder {
    ghost does = { λ a w. (told : Option Files) × (c : Collection) × ReadsAs told a.repository c × IsBacked told a.repository × (w ≡ adding told a.repository.held.limits c) };

    ghost is_whole = { λ a. a.repository.usable ≡ true };

    #[tactic(auto, unfolding(crate::specs::Work::behind, crate::specs::Work::replies))]
    fn take(&mut self, alloc: Global, document: RawDoc) -> Result<Option<Reply>, NoMemory> {
        match doc_of(alloc, document) {
            Ok(doc) => Ok(Some(self.add(alloc, &doc)?)),
            Err(TokenRefusal::Memory) => Err(AllocError),
            Err(refusal) => {
                let reply = reply_of(alloc, &Refusal::Document(refusal))?;
                Ok(Some(reply))
            }
        }
    }
}
