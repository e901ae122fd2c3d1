// The fields of a document that are open.
ghost use Rattle.std.specs.Prelude.{◌≡◌, ℕ, List, [], ◌∷◌, false, MatchOption, OnOk};
ghost use Rattle.std.specs.Cmp.Lexicographic.{slice_cmp};
ghost use Rattle.std.specs.List.Sorted.{IsStrictlySortedBy};
ghost use Rattle.std.specs.Map.{keys_of};
ghost use Rattle.std.specs.Ordering.{nat_cmp};
ghost use Rattle.std.specs.Str.{bytes_eq};
ghost use Rattle.tokens.specs.Fields.{with_fields};
ghost use Rattle.tokens.specs.Open.{begins_at, closings, named};

use crate::field_set::FieldSet;
use ri_base::{Name, NoMemory};
use std::alloc::Global;
use std::collections::BTreeMap;

/// The fields that are open: the places at which those of each name begin, the last one last.
#[derive(Drop)]
pub struct OpenFields {
    alloc: Global,
    begins: BTreeMap<Name, Vec<u32>>,
}

impl OpenFields {
    /// No field is open yet.
    pub fn new(alloc: Global) -> OpenFields
        ensures { (name : List ℕ) → begins_at result name ≡ [] }
    {
        OpenFields {
            alloc,
            begins: BTreeMap::new(alloc),
        }
    }

    /// Opens a field of this name.
    pub fn open_field(&mut self, name: Name, begin: u32) -> Result<(), NoMemory>
        ensures here { OnOk result (begins_at self.new name ≡ begin ∷ begins_at self.old name) }
        ensures others { OnOk result ((other : List ℕ) → bytes_eq other name ≡ false → begins_at self.new other ≡ begins_at self.old other) }
    {
        if let Some(begins) = self.begins.get_mut(&name) {
            begins.push(begin)?;
            return Ok(());
        }
        let mut begins = Vec::new(self.alloc);
        begins.push(begin)?;
        self.begins.insert(name, begins)?;
        Ok(())
    }

    /// Closes the field of this name that was opened last, and answers where it begins, where one is open.
    pub fn close_field(&mut self, name: &Name) -> Option<u32>
        ensures here { MatchOption result
            ((begins_at self.old name.now ≡ []) × (begins_at self.new name.now ≡ []))
            (λ begin. begins_at self.old name.now ≡ begin ∷ begins_at self.new name.now) }
        ensures others { (other : List ℕ) → bytes_eq other name.now ≡ false → begins_at self.new other ≡ begins_at self.old other }
    {
        match self.begins.get_mut(name) {
            Some(begins) => begins.pop(),
            None => None,
        }
    }

    /// Closes all of them, and puts those that have a token among the fields.
    pub fn close_all(self, end: u32, fields: &mut FieldSet) -> Result<(), NoMemory>
        ensures fields { OnOk result (fields.new ≡ with_fields fields.old (closings end self)) }
        ensures names { OnOk result (IsStrictlySortedBy (slice_cmp nat_cmp) (keys_of self.begins.entries)) }
    {
        for (name, begins) in self.begins {
            insert_named(self.alloc, fields, &name, &begins, end)?;
        }
        Ok(())
    }
}

/// Puts the fields of a name that begin at these places and end here among the fields, where they have a token.
fn insert_named(
    alloc: Global,
    fields: &mut FieldSet,
    name: &Name,
    begins: &[u32],
    end: u32,
) -> Result<(), NoMemory>
    ensures { OnOk result (fields.new ≡ with_fields fields.old (named end name.now begins.now)) }
{
    for begin in begins {
        fields.insert(name.clone_in(alloc)?, *begin, end)?;
    }
    Ok(())
}
