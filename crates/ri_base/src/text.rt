// Byte strings of three forms: a document's identifier, a term, the name of a field.
ghost use Rattle.std.specs.Prelude.{◌≡◌, IfOk, None, Some, IsTrue, map, if◌then◌else◌};
ghost use Rattle.std.specs.List.{list_all};
ghost use Rattle.ri_base.specs.Ascii.{lower, is_upper, is_lower, is_digit};
ghost use Rattle.ri_base.specs.Text.{is_docno, is_docno_byte, is_term, is_name, is_name_byte, starts_with_letter};

use crate::NoMemory;
use crate::ascii::{is_digit, is_lower, lower};
use crate::short_bytes::ShortBytes;
use std::alloc::Global;
use std::marker::Model;

/// The most bytes of a docno, so that a byte holds their number.
pub const DOCNO_BYTES: usize = 255;

/// The most bytes of a term. What is longer in a text is seldom a word, and a byte holds the number.
pub const TERM_BYTES: usize = 128;

/// The most bytes of a name, more than the names of fields in test collections have.
pub const NAME_BYTES: usize = 32;

/// A document's identifier: 1 to 255 visible bytes of ASCII, none of them `<`.
#[derive(Debug, Drop, PartialEq, Eq, PartialOrd, Ord, Hash)]
pub struct Docno {
    bytes: ShortBytes,
}

impl Model for Docno {
    ghost use Rattle.std.specs.Prelude.{ℕ, List, IsTrue};
    ghost use Rattle.ri_base.specs.Text.{is_docno};

    ghost Value = { List ℕ };

    ghost view = { λ d. d.bytes };

    ghost invariant = { λ d. IsTrue (is_docno d.bytes) };

    ghost inverse = { λ bytes. record { bytes = bytes } };
}

/// A visible byte of ASCII other than `<`.
pub fn is_docno_byte(byte: u8) -> bool
    ensures { result ≡ is_docno_byte byte }
{
    byte.is_ascii_graphic() && byte != b'<'
}

fn are_docno_bytes(bytes: &[u8]) -> bool
    ensures { result ≡ list_all is_docno_byte bytes.now }
{
    bytes.iter().all(|byte| is_docno_byte(*byte))
}

impl Docno {
    /// The docno of these bytes, where they are of its form.
    pub fn new(alloc: Global, bytes: &[u8]) -> Result<Option<Docno>, NoMemory>
        ensures { IfOk result (λ found. found ≡ (if is_docno bytes.now then Some bytes.now else None)) }
    {
        if bytes.is_empty() || bytes.len() > DOCNO_BYTES || !are_docno_bytes(bytes) {
            return Ok(None);
        }
        let bytes = ShortBytes::copy_of(alloc, bytes)?;
        Ok(Some(Docno { bytes }))
    }

    pub fn as_bytes(&self) -> &[u8]
        ensures bytes { result.now ≡ self.now }
        ensures form { IsTrue (is_docno result.now) }
    {
        self.bytes.as_slice()
    }

    /// An equal docno.
    pub fn clone_in(&self, alloc: Global) -> Result<Docno, NoMemory>
        ensures { IfOk result (λ docno. docno ≡ self.now) }
    {
        let bytes = self.bytes.clone_in(alloc)?;
        Ok(Docno { bytes })
    }
}

/// A term: 1 to 128 bytes of any kind.
#[derive(Debug, Drop, PartialEq, Eq, PartialOrd, Ord, Hash)]
pub struct Term {
    bytes: ShortBytes,
}

impl Model for Term {
    ghost use Rattle.std.specs.Prelude.{ℕ, List, IsTrue};
    ghost use Rattle.ri_base.specs.Text.{is_term};

    ghost Value = { List ℕ };

    ghost view = { λ t. t.bytes };

    ghost invariant = { λ t. IsTrue (is_term t.bytes) };

    ghost inverse = { λ bytes. record { bytes = bytes } };
}

impl Term {
    /// The term of these bytes, where they are of its form.
    pub fn new(alloc: Global, bytes: &[u8]) -> Result<Option<Term>, NoMemory>
        ensures { IfOk result (λ found. found ≡ (if is_term bytes.now then Some bytes.now else None)) }
    {
        if bytes.is_empty() || bytes.len() > TERM_BYTES {
            return Ok(None);
        }
        let bytes = ShortBytes::copy_of(alloc, bytes)?;
        Ok(Some(Term { bytes }))
    }

    pub fn as_bytes(&self) -> &[u8]
        ensures bytes { result.now ≡ self.now }
        ensures form { IsTrue (is_term result.now) }
    {
        self.bytes.as_slice()
    }

    /// An equal term.
    pub fn clone_in(&self, alloc: Global) -> Result<Term, NoMemory>
        ensures { IfOk result (λ term. term ≡ self.now) }
    {
        let bytes = self.bytes.clone_in(alloc)?;
        Ok(Term { bytes })
    }
}

/// The name of a field: a letter and then letters and digits of ASCII, in lower case, at most 32 bytes.
#[derive(Debug, Drop, PartialEq, Eq, PartialOrd, Ord, Hash)]
pub struct Name {
    bytes: ShortBytes,
}

impl Model for Name {
    ghost use Rattle.std.specs.Prelude.{ℕ, List, IsTrue};
    ghost use Rattle.ri_base.specs.Text.{is_name};

    ghost Value = { List ℕ };

    ghost view = { λ n. n.bytes };

    ghost invariant = { λ n. IsTrue (is_name n.bytes) };

    ghost inverse = { λ bytes. record { bytes = bytes } };
}

fn lowered(alloc: Global, bytes: &[u8]) -> Result<Vec<u8>, NoMemory>
    ensures { IfOk result (λ lowered. lowered.items ≡ map lower bytes.now) }
{
    bytes.iter().map(|byte| lower(*byte)).collect(alloc)
}

fn are_name_bytes(bytes: &[u8]) -> bool
    ensures { result ≡ list_all is_name_byte bytes.now }
{
    bytes.iter().all(|byte| is_lower(*byte) || is_digit(*byte))
}

fn starts_with_letter(bytes: &[u8]) -> bool
    ensures { result ≡ starts_with_letter bytes.now }
{
    match bytes {
        [first, ..] => is_lower(*first),
        [] => false,
    }
}

impl Name {
    /// The name of these bytes, read without case, where they are of its form.
    pub fn new(alloc: Global, bytes: &[u8]) -> Result<Option<Name>, NoMemory>
        ensures { IfOk result (λ found. found ≡ (if is_name (map lower bytes.now) then Some (map lower bytes.now) else None)) }
    {
        if bytes.len() > NAME_BYTES {
            return Ok(None);
        }
        let bytes = lowered(alloc, bytes)?;
        Name::of_lower(alloc, &bytes)
    }

    /// The name of these bytes, where they are of its form as they stand.
    pub fn of_lower(alloc: Global, bytes: &[u8]) -> Result<Option<Name>, NoMemory>
        ensures { IfOk result (λ found. found ≡ (if is_name bytes.now then Some bytes.now else None)) }
    {
        if !starts_with_letter(bytes) || bytes.len() > NAME_BYTES || !are_name_bytes(bytes) {
            return Ok(None);
        }
        let bytes = ShortBytes::copy_of(alloc, bytes)?;
        Ok(Some(Name { bytes }))
    }

    pub fn as_bytes(&self) -> &[u8]
        ensures bytes { result.now ≡ self.now }
        ensures form { IsTrue (is_name result.now) }
    {
        self.bytes.as_slice()
    }

    /// An equal name.
    pub fn clone_in(&self, alloc: Global) -> Result<Name, NoMemory>
        ensures { IfOk result (λ name. name ≡ self.now) }
    {
        let bytes = self.bytes.clone_in(alloc)?;
        Ok(Name { bytes })
    }
}
