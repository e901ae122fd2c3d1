// The terms of texts.
ghost use Rattle.std.specs.Prelude.{◌≡◌, ◌<◌, ◌≤◌, ◌++◌, ◌∷◌, [], length, IfOk, OnOk, Err};
ghost use Rattle.tokens.specs.Words.{byte_terms, folded, terms_among, text_terms};
ghost use Rattle.ri_base.specs.declared.limits.TheConstants.{MAX_DOC_TOKENS};

use bstr::ByteSlice;
use caseless::default_case_fold_str;
use ri_base::limits::MAX_DOC_TOKENS;
use ri_base::{NoMemory, Term, Terms};
use std::alloc::{AllocError, Global};
use unicode_segmentation::UnicodeSegmentation;

/// Why terms aren't counted further.
#[derive(Clone, Copy, Debug, PartialEq, Eq)]
pub enum Stop {
    /// There are more than a document may have.
    TooMany,
    Memory,
}

impl From<AllocError> for Stop {
    ghost use Rattle.tokens.specs.declared.terms.Stop.TheVariants.{Memory};

    ghost from_gives = { λ _ stop. stop ≡ Memory };

    fn from(_: AllocError) -> Stop {
        Stop::Memory
    }
}

/// Appends the term of a word, unless the word is too long folded.
fn push_word(alloc: Global, word: &str, terms: &mut Terms) -> Result<(), NoMemory>
    ensures { OnOk result (terms.new ≡ terms.old ++ terms_among (word.now ∷ [])) }
{
    let folded = default_case_fold_str(alloc, word)?;
    if let Some(term) = Term::new(alloc, folded.as_str().as_bytes())? {
        terms.push(term)?;
    }
    Ok(())
}

/// The terms of a text, in order.
pub fn terms_of(alloc: Global, text: &str) -> Result<Terms, NoMemory>
    ensures { IfOk result (λ terms. terms ≡ text_terms text.now) }
{
    let mut terms = Terms::new(alloc);
    for word in text.unicode_words() {
        push_word(alloc, word, &mut terms)?;
    }
    Ok(terms)
}

/// Appends the terms of a text, as long as there are no more than a document may have.
fn push_terms(alloc: Global, text: &str, terms: &mut Terms) -> Result<(), Stop>
    requires { length terms.old ≤ MAX_DOC_TOKENS }
    ensures ok { OnOk result (terms.new ≡ terms.old ++ text_terms text.now) }
    ensures few { OnOk result (length terms.new ≤ MAX_DOC_TOKENS) }
    ensures many { result ≡ Err Stop.TooMany → MAX_DOC_TOKENS < length (terms.old ++ text_terms text.now) }
{
    for word in text.unicode_words() {
        push_word(alloc, word, terms)?;
        if terms.len() > MAX_DOC_TOKENS {
            return Err(Stop::TooMany);
        }
    }
    Ok(())
}

/// Appends the terms of bytes, as long as there are no more than a document may have.
#[tactic(auto, unfolding(crate::specs::Words::byte_terms))]
pub fn push_byte_terms(alloc: Global, bytes: &[u8], terms: &mut Terms) -> Result<(), Stop>
    requires { length terms.old ≤ MAX_DOC_TOKENS }
    ensures ok { OnOk result (terms.new ≡ terms.old ++ byte_terms bytes.now) }
    ensures few { OnOk result (length terms.new ≤ MAX_DOC_TOKENS) }
    ensures many { result ≡ Err Stop.TooMany → MAX_DOC_TOKENS < length (terms.old ++ byte_terms bytes.now) }
{
    let text = bytes.to_str_lossy(alloc)?;
    push_terms(alloc, text.as_str(), terms)
}
