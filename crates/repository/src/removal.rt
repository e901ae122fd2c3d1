// Files that are no longer read are removed.
ghost use Rattle.std.specs.Prelude.{◌≡◌, ◌≤◌, ◌≢◌, ℕ, Err, true, IfErr, OnOk};
ghost use Rattle.ri_base.specs.Faults.{IsOutside};
ghost use Rattle.ri_base.specs.Keeps.{Rose};
ghost use Rattle.store_ends.specs.Files.{GoesOn, Leaves, SameWhere};
ghost use Rattle.repository.specs.Numbers.{is_among};
ghost use Rattle.repository.specs.Writes.{AreGone, IsGone, IsOther};

use crate::files::remove_file;
use crate::names::prior_name;
use disk_index::segment_name;
use ri_base::SegFault;
use store_ends::Store;

/// Removes the files that this number may have, that of a segment and that of a prior.
#[tactic(auto, using(crate::proofs::NameLemmas::prior_ascii, crate::proofs::NameLemmas::prior_short, crate::proofs::NameLemmas::segment_ascii, crate::proofs::NameLemmas::segment_short))]
fn remove_number<T: Store>(store: &mut T, number: u64) -> Result<(), SegFault>
    ensures gone { OnOk result (IsGone number (T.files store.new)) }
    ensures still { OnOk result ((n : ℕ) → IsGone n (T.files store.old) → IsGone n (T.files store.new)) }
    ensures same { SameWhere (IsOther (λ n. n ≡ number)) (T.files store.old) (T.files store.new) }
    ensures stops { Leaves (T.since store.old) (T.since store.new) (SameWhere (IsOther (λ n. n ≡ number)) (T.files store.old)) }
    ensures goes_on { GoesOn T.layers T.clock T.longest T.held store.old store.new }
    ensures outside { IfErr result IsOutside }
    ensures later { T.faults store.old ≤ T.faults store.new }
    ensures store { result ≡ Err SegFault.Store → Rose (T.faults store.old) (T.faults store.new) }
    ensures none { result ≢ Err SegFault.Store → T.faults store.new ≡ T.faults store.old }
{
    let segment = segment_name(number);
    remove_file(store, &segment)?;
    let prior = prior_name(number);
    remove_file(store, &prior)?;
    Ok(())
}

/// Removes the files that these numbers may have.
pub fn remove_files<T: Store>(store: &mut T, numbers: &[u64]) -> Result<(), SegFault>
    ensures gone { OnOk result (AreGone numbers.now (T.files store.new)) }
    ensures same { SameWhere (IsOther (λ n. is_among n numbers.now ≡ true)) (T.files store.old) (T.files store.new) }
    ensures stops { Leaves (T.since store.old) (T.since store.new) (SameWhere (IsOther (λ n. is_among n numbers.now ≡ true)) (T.files store.old)) }
    ensures goes_on { GoesOn T.layers T.clock T.longest T.held store.old store.new }
    ensures outside { IfErr result IsOutside }
    ensures later { T.faults store.old ≤ T.faults store.new }
    ensures store { result ≡ Err SegFault.Store → Rose (T.faults store.old) (T.faults store.new) }
    ensures none { result ≢ Err SegFault.Store → T.faults store.new ≡ T.faults store.old }
{
    for number in numbers {
        remove_number(store, *number)?;
    }
    Ok(())
}
