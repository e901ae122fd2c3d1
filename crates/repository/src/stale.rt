// The files that are no longer read.
ghost use Rattle.std.specs.Prelude.{◌≡◌, ◌≤◌, length, nat_le, position, OnErr, OnOk};
ghost use Rattle.repository.specs.Stale.{place_among, with_stale};

use ri_base::NoMemory;

/// The place of the first number that is at least this one.
fn first_from(numbers: &[u64], number: u64) -> Option<usize>
    ensures { result ≡ position (λ m. nat_le number m) numbers.now }
{
    numbers.iter().position(|other| number <= *other)
}

/// The place of a number among others that rise.
fn place_among(numbers: &[u64], number: u64) -> usize
    ensures place { result ≡ place_among number numbers.now }
    ensures bound { result ≤ length numbers.now }
{
    match first_from(numbers, number) {
        Some(place) => place,
        None => numbers.len(),
    }
}

/// Notes that the file of this number is no longer read. The numbers rise before and behind it.
pub fn note_stale(stale: &mut Vec<u64>, number: u64) -> Result<(), NoMemory>
    ensures done { OnOk result (stale.new.items ≡ with_stale stale.old.items number) }
    ensures kept { OnErr result (stale.new.items ≡ stale.old.items) }
{
    let place = place_among(stale, number);
    stale.insert(place, number)?;
    Ok(())
}
