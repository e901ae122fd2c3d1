// At how many tokens of a document fields of a name begin.
ghost use Rattle.std.specs.Prelude.{◌≡◌, nat_eq, AllPairs, ◌∷◌, ◌++◌, [], List, ℕ};
ghost use Rattle.std.specs.Set.{distinct_count};
ghost use Rattle.ri_base.specs.Documents.{IsBefore};
ghost use Rattle.range_tables.specs.Begins.{IsCounted, IsNoEarlier, named_begin};
ghost use Rattle.range_bounds.specs.Ranges.{field_begins};

use crate::begun::Begun;
use ri_base::{FieldSpan, Name};

/// The count with one field more, where it has the name. It begins no earlier than those so far.
fn with_field(begun: Begun, span: &FieldSpan, name: &Name) -> Begun
    ensures { (begins : List ℕ) → IsNoEarlier begins span.now.begin → IsCounted begins begun
        → IsCounted (begins ++ named_begin name.now span.now) result }
{
    if span.name() != name {
        return begun;
    }
    begun.with(span.begin())
}

/// At how many tokens fields of the name begin, of fields in their order.
pub(crate) fn begin_count(spans: &[FieldSpan], name: &Name) -> u64
    requires { AllPairs IsBefore spans.now }
    ensures { result ≡ distinct_count nat_eq (field_begins name.now spans.now) }
{
    let mut begun = Begun::new();
    for span in spans {
        begun = with_field(begun, span, name);
    }
    begun.count
}
