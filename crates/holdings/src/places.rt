// The places of live documents.
ghost use Rattle.std.specs.Prelude.{◌≡◌, ◌<◌, ◌+◌, ℕ, List, Some, None, length, if◌then◌else◌};
ghost use Rattle.std.specs.Map.{lookup};
ghost use Rattle.std.specs.Str.{bytes_eq};
ghost use Rattle.indexmap.specs.IndexMap.{spare};

use crate::spot::Spot;
use indexmap::IndexMap;
use ri_base::Docno;

/// Notes the place of a docno that isn't there. There is room for it.
pub fn insert(places: &mut IndexMap<Docno, Spot>, docno: Docno, spot: Spot)
    requires room { 0 < spare places.old }
    requires absent { lookup (bytes_eq docno) places.old.entries ≡ None }
    ensures put { (q : List ℕ) → lookup (bytes_eq q) places.new.entries ≡ (if bytes_eq docno q then Some spot else lookup (bytes_eq q) places.old.entries) }
    ensures len { length places.new.entries ≡ length places.old.entries + 1 }
{
    match places.insert(docno, spot) {
        Ok(_) => {}
        Err(_) => unreachable!(),
    }
}
