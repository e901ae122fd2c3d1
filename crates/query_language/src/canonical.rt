// The canonical text of a query.
ghost use Rattle.std.specs.Prelude.{◌≡◌, IfOk};
ghost use Rattle.query_reader.specs.Answers.{Answers};
ghost use Rattle.query_reader.specs.QueryText.{query_text};
ghost use Rattle.query_language.specs.Canonical.{canonical};

use crate::{QueryFault, print_query, read_query};
use ri_base::Bytes;
use std::alloc::Global;

/// The text that is printed of the query that a text is read as. It is read as the same query.
pub fn canonical_query(alloc: Global, text: &str) -> Result<Bytes, QueryFault>
    ensures exact { Answers (λ printed. printed) result (canonical text.now) }
    ensures same { IfOk result (λ printed. query_text printed ≡ query_text text.now) }
{
    let query = read_query(alloc, text)?;
    match print_query(alloc, &query) {
        Ok(printed) => Ok(printed),
        Err(_) => Err(QueryFault::Memory),
    }
}
