// The lesser of two ends.
ghost use Rattle.std.specs.Prelude.{◌≡◌};
ghost use Rattle.extent_lists.specs.Rows.{least_with};

/// The lesser of an end and what may be one.
pub fn lesser(end: u32, least: Option<u32>) -> Option<u32>
    ensures { result ≡ least_with end least }
{
    match least {
        None => Some(end),
        Some(other) => Some(end.min(other)),
    }
}
