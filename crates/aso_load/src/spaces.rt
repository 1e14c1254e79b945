// The spaces at the ends of a field.
ghost use Rattle.std.specs.Prelude.{◌≡◌, ◌+◌, ◌<◌, ◌≤◌, ◌^◌, length, if◌then◌else◌};
ghost use Rattle.std.specs.List.{prefix_len};
ghost use Rattle.aso_load.specs.Fields.{end_of, is_space, trimmed};

// How many bytes stand before the spaces, once the byte at a place was seen.
fn past(end: usize, i: usize, byte: u8) -> usize
    requires { i + 1 < 2 ^ 64 }
    ensures { result ≡ (if is_space byte then end else i + 1) }
{
    if byte == b' ' { end } else { i + 1 }
}

fn end_of(field: &[u8]) -> usize
    ensures value { result ≡ end_of field.now }
    ensures within { result ≤ length field.now }
{
    let mut end = 0;
    for (i, byte) in field.iter().enumerate() {
        end = past(end, i, *byte);
    }
    end
}

fn start_of(field: &[u8]) -> usize
    ensures value { result ≡ prefix_len is_space field.now }
    ensures within { result ≤ length field.now }
{
    for (i, byte) in field.iter().enumerate() {
        if *byte != b' ' {
            return i;
        }
    }
    field.len()
}

/// A field without the spaces at its ends.
pub fn trimmed(field: &[u8]) -> &[u8]
    ensures { result.now ≡ trimmed field.now }
{
    let before = &field[..end_of(field)];
    &before[start_of(before)..]
}
