// The names of files.
ghost use Rattle.std.specs.Prelude.{◌≡◌, ◌<◌, IsAscii, length};
ghost use Rattle.disk_index.specs.Names.{digit, hex, segment_name};

/// The digit of a number below 16.
fn digit(value: u8) -> u8
    requires { value < 16 }
    ensures { result ≡ digit value }
{
    if value < 10 {
        b'0' + value
    } else {
        b'a' - 10 + value
    }
}

/// Fills the places with the digits of a number, the lowest in the last place.
pub fn write_hex(places: &mut [u8], number: u64)
    ensures { places.new ≡ hex (length places.old) number }
{
    let count = places.len();
    if count > 0 {
        places[count - 1] = digit((number % 16) as u8);
        write_hex(&mut places[..count - 1], number / 16);
    }
}

/// The name of the segment with this number, as bytes.
pub fn segment_name(number: u64) -> [u8; 20]
    ensures { result ≡ segment_name number }
{
    let mut name = *b"seg-0000000000000000";
    write_hex(&mut name[4..], number);
    name
}

/// A name as text.
pub fn as_text(name: &[u8]) -> &str
    requires { IsAscii name.now }
    ensures { result.now ≡ name.now }
{
    match str::from_utf8(name) {
        Ok(text) => text,
        Err(_) => unreachable!(),
    }
}
