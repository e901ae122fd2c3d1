// Why documents aren't added or deleted, and why parts aren't held.
use ri_base::Docno;
use std::alloc::AllocError;
use thiserror::Error;

/// Why a document isn't added.
#[derive(Debug, Drop, Error)]
pub enum AddRefusal {
    /// A live document has its docno.
    #[error("{docno:?} is there already")]
    Repeated { docno: Docno },
    /// With it more would be held than the limits allow.
    #[error("there is no room for {docno:?}")]
    CollectionFull { docno: Docno },
    #[error("out of memory")]
    Memory,
}

impl From<AllocError> for AddRefusal {
    ghost use Rattle.std.specs.Prelude.{◌≡◌};
    ghost use Rattle.holdings.specs.declared.refusals.AddRefusal.TheVariants.{Memory};

    ghost from_gives = { λ _ refusal. refusal ≡ Memory };

    fn from(_: AllocError) -> AddRefusal {
        AddRefusal::Memory
    }
}

/// No live document has the docno.
#[derive(Clone, Copy, Debug, PartialEq, Eq, Error)]
#[error("there is no such document")]
pub struct NoSuchDoc;

/// Why parts can't be held together, told of the first part that can't. Parts are counted from 0.
#[derive(Debug, Drop, Error)]
pub enum PartsFault {
    /// With this part more documents would be held than the limits allow.
    #[error("there are too many documents, with part {part}")]
    TooManyDocs { part: usize },
    /// With this part more tokens would be held than the limits allow.
    #[error("there are too many tokens, with part {part}")]
    TooManyTokens { part: usize },
    /// An earlier live document has the docno of the live document with this id.
    #[error("document {id} of part {part} is there already")]
    Repeated { part: usize, id: u32 },
    #[error("out of memory")]
    Memory,
}

impl From<AllocError> for PartsFault {
    ghost use Rattle.std.specs.Prelude.{◌≡◌};
    ghost use Rattle.holdings.specs.declared.refusals.PartsFault.TheVariants.{Memory};

    ghost from_gives = { λ _ fault. fault ≡ Memory };

    fn from(_: AllocError) -> PartsFault {
        PartsFault::Memory
    }
}
