// Fields of a document, and lists of them.
ghost use Rattle.std.specs.Prelude.{◌≡◌, ◌<◌, IfOk};

use crate::{List, Name, NoMemory};
use std::alloc::Global;
use std::marker::Model;

/// A field of a document: its name, and its tokens from `begin` on up to `end`, the token at `end` not among them.
/// It has at least one.
#[derive(Debug, Drop)]
pub struct FieldSpan {
    name: Name,
    begin: u32,
    end: u32,
}

impl Model for FieldSpan {
    ghost use Rattle.std.specs.Prelude.{◌<◌};
    ghost use Rattle.ri_base.specs.Documents.{Field};

    ghost Value = { Field };

    ghost view = { λ s. record { name = s.name; begin = s.begin; end = s.end } };

    ghost invariant = { λ s. s.begin < s.end };
}

impl FieldSpan {
    /// The field of this name over the tokens from `begin` on up to `end`.
    pub fn new(name: Name, begin: u32, end: u32) -> FieldSpan
        requires { begin < end }
        ensures { result ≡ record { name = name; begin = begin; end = end } }
    {
        FieldSpan { name, begin, end }
    }

    pub fn name(&self) -> &Name
        ensures { result.now ≡ self.now.name }
    {
        &self.name
    }

    pub fn begin(&self) -> u32
        ensures begin { result ≡ self.now.begin }
        ensures some { result < self.now.end }
    {
        self.begin
    }

    pub fn end(&self) -> u32
        ensures end { result ≡ self.now.end }
        ensures some { self.now.begin < result }
    {
        self.end
    }

    /// An equal field.
    pub fn clone_in(&self, alloc: Global) -> Result<FieldSpan, NoMemory>
        ensures { IfOk result (λ span. span ≡ self.now) }
    {
        let name = self.name.clone_in(alloc)?;
        Ok(FieldSpan {
            name,
            begin: self.begin,
            end: self.end,
        })
    }
}

/// Fields, seen as their list.
pub type Spans = List<FieldSpan>;

impl Spans {
    /// Equal fields.
    pub fn clone_in(&self, alloc: Global) -> Result<Spans, NoMemory>
        ensures { IfOk result (λ spans. spans ≡ self.now) }
    {
        let mut spans = Spans::new(alloc);
        for span in self.as_slice() {
            spans.push(span.clone_in(alloc)?)?;
        }
        Ok(spans)
    }
}
