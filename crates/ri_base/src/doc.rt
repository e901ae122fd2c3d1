// A document.
ghost use Rattle.std.specs.Prelude.{◌≡◌, ◌≤◌, length, IfOk};
ghost use Rattle.ri_base.specs.Collection.{names_of};
ghost use Rattle.ri_base.specs.Documents.{IsDocument};
ghost use Rattle.ri_base.specs.Names.{AreNames};
ghost use Rattle.ri_base.specs.declared.limits.TheConstants.{MAX_DOC_TOKENS};

use crate::{Docno, FieldSpan, Name, NoMemory, Spans, Terms};
use std::alloc::Global;
use std::marker::Model;

/// A document: its docno, its tokens in their places, counted from 0, and its fields. It has at most 1,048,576 tokens
/// and at most 65,535 fields, which lie within the tokens, are distinct, and stand by begin, then end, then name.
#[derive(Debug, Drop)]
pub struct Doc {
    docno: Docno,
    tokens: Terms,
    fields: Spans,
    /// The distinct names of the fields.
    names: Vec<Name>,
}

impl Model for Doc {
    ghost use Rattle.ri_base.specs.Documents.{Document, IsDocument};
    ghost use Rattle.ri_base.specs.Names.{AreNames};

    ghost Value = { Document };

    ghost view = { λ d. record { docno = d.docno; tokens = d.tokens; fields = d.fields } };

    ghost invariant = { λ d. IsDocument d.tokens d.fields × AreNames d.names.items d.fields };
}

impl Doc {
    /// The document of these parts.
    pub fn new(alloc: Global, docno: Docno, tokens: Terms, fields: Spans) -> Result<Doc, NoMemory>
        requires { IsDocument tokens fields }
        ensures { IfOk result (λ doc. doc ≡ record { docno = docno; tokens = tokens; fields = fields }) }
    {
        let names = distinct_names(alloc, fields.as_slice())?;
        Ok(Doc {
            docno,
            tokens,
            fields,
            names,
        })
    }

    pub fn docno(&self) -> &Docno
        ensures { result.now ≡ self.now.docno }
    {
        &self.docno
    }

    pub fn tokens(&self) -> &Terms
        ensures tokens { result.now ≡ self.now.tokens }
        ensures form { IsDocument result.now self.now.fields }
    {
        &self.tokens
    }

    pub fn fields(&self) -> &Spans
        ensures fields { result.now ≡ self.now.fields }
        ensures form { IsDocument self.now.tokens result.now }
    {
        &self.fields
    }

    /// The distinct names of its fields.
    pub fn names(&self) -> &[Name]
        ensures { AreNames result.now self.now.fields }
    {
        self.names.as_slice()
    }

    /// How many tokens it has.
    pub fn len(&self) -> u32
        ensures exact { result ≡ length self.now.tokens }
        ensures most { result ≤ MAX_DOC_TOKENS }
    {
        self.tokens.len() as u32
    }

    /// An equal document.
    pub fn clone_in(&self, alloc: Global) -> Result<Doc, NoMemory>
        ensures { IfOk result (λ doc. doc ≡ self.now) }
    {
        let docno = self.docno.clone_in(alloc)?;
        let tokens = self.tokens.clone_in(alloc)?;
        let fields = self.fields.clone_in(alloc)?;
        Doc::new(alloc, docno, tokens, fields)
    }
}

/// Each name of a field, once, in order.
fn distinct_names(alloc: Global, fields: &[FieldSpan]) -> Result<Vec<Name>, NoMemory>
    ensures { IfOk result (λ names. AreNames names.items fields.now) }
{
    let mut names = all_names(alloc, fields)?;
    names.sort_unstable();
    names.dedup();
    Ok(names)
}

/// The name of each field.
fn all_names(alloc: Global, fields: &[FieldSpan]) -> Result<Vec<Name>, NoMemory>
    ensures { IfOk result (λ names. names.items ≡ names_of fields.now) }
{
    let mut names = Vec::with_capacity(alloc, fields.len())?;
    for field in fields {
        names.push(field.name().clone_in(alloc)?)?;
    }
    Ok(names)
}
