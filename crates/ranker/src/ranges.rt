// Ranges of 64 ids of an index.
ghost use Rattle.std.specs.Prelude.{◌≡◌, ◌<◌, ◌+◌, ◌*◌, min};

/// The id behind the last one of a range, of so many documents.
pub fn end_of(range: u32, docs: u32) -> u32
    requires { 64 * range < docs }
    ensures { result ≡ min docs (64 * (range + 1)) }
{
    let from = 64 * range;
    from + (docs - from).min(64)
}

/// The first id of a range, or, where the range lies behind all documents, the id behind the last one.
pub fn start_of(range: u32, docs: u32) -> u32
    ensures { result ≡ min docs (64 * range) }
{
    if range <= docs / 64 { 64 * range } else { docs }
}
