// The names of a repository's files, beside those of its segments.
ghost use Rattle.std.specs.Prelude.{◌≡◌};
ghost use Rattle.repository.specs.Names.{prior_name};

use disk_index::write_hex;

/// The name of the file of the prior with this number, as bytes.
pub fn prior_name(number: u64) -> [u8; 20]
    ensures { result ≡ prior_name number }
{
    let mut name = *b"pri-0000000000000000";
    write_hex(&mut name[4..], number);
    name
}
