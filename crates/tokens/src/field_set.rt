// The fields of a document, as a set.
ghost use Rattle.std.specs.Prelude.{◌≡◌, [], length, IfOk, OnOk};
ghost use Rattle.tokens.specs.Fields.{with_field};

use ri_base::{FieldSpan, Name, NoMemory, Spans};
use std::alloc::Global;
use std::collections::BTreeSet;
use std::marker::Model;

/// Fields by begin, then end, then name, each once.
#[derive(Drop)]
pub struct FieldSet {
    fields: BTreeSet<(u32, u32, Name)>,
}

impl Model for FieldSet {
    ghost use Rattle.std.specs.Prelude.{List, map};
    ghost use Rattle.std.specs.List.{All};
    ghost use Rattle.ri_base.specs.Documents.{Field};
    ghost use Rattle.std.specs.List.Sorted.{IsStrictlySortedBy};
    ghost use Rattle.tokens.specs.Keys.{HasToken, field_of, key_cmp};

    ghost Value = { List Field };

    ghost view = { λ s. map field_of s.fields.keys };

    ghost invariant = { λ s. All HasToken s.fields.keys × IsStrictlySortedBy key_cmp s.fields.keys };
}

impl FieldSet {
    /// No fields yet.
    pub fn new(alloc: Global) -> FieldSet
        ensures { result ≡ [] }
    {
        FieldSet {
            fields: BTreeSet::new(alloc),
        }
    }

    /// Puts a field among the others, unless it has no token.
    pub fn insert(&mut self, name: Name, begin: u32, end: u32) -> Result<(), NoMemory>
        ensures { OnOk result (self.new ≡ with_field self.old (record { name = name; begin = begin; end = end })) }
    {
        if begin < end {
            self.fields.insert((begin, end, name))?;
        }
        Ok(())
    }

    pub fn len(&self) -> usize
        ensures { result ≡ length self.now }
    {
        self.fields.len()
    }

    /// The fields in order.
    pub fn into_spans(self, alloc: Global) -> Result<Spans, NoMemory>
        ensures { IfOk result (λ spans. spans ≡ self) }
    {
        let mut spans = Vec::with_capacity(alloc, self.fields.len())?;
        for (begin, end, name) in self.fields {
            spans.push(FieldSpan::new(name, begin, end))?;
        }
        Ok(Spans::of(spans))
    }
}
