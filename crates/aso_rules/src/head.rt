// The head of a rules file: the delimiter and the number of header records.
ghost use Rattle.std.specs.Prelude.{◌≡◌};
ghost use Rattle.serde_json.specs.View.{view};
ghost use Rattle.aso_rules.specs.Written.{delimiter_in, delimiter_of, header_records_of, is_delimiter};

use serde_json::Value;

const MOST_HEADER_RECORDS: u64 = 1000;

fn is_delimiter(byte: u8) -> bool
    ensures { result ≡ is_delimiter byte }
{
    byte < 128 && !(byte == b'"' || byte == b'\r' || byte == b'\n')
}

fn delimiter_in(text: &[u8]) -> Option<u8>
    ensures { result ≡ delimiter_in text.now }
{
    match text {
        [byte] if is_delimiter(*byte) => Some(*byte),
        _ => None,
    }
}

/// The byte between fields.
pub fn delimiter(value: &Value) -> Option<u8>
    ensures { result ≡ delimiter_of (view value.now) }
{
    match value.get("delimiter") {
        Some(said) => match said.as_str() {
            Some(text) => delimiter_in(text.as_bytes()),
            None => None,
        },
        None => Some(b','),
    }
}

/// How many records are passed over.
pub fn header_records(value: &Value) -> Option<u32>
    ensures { result ≡ header_records_of (view value.now) }
{
    match value.get("header_records") {
        Some(said) => match said.as_u64() {
            Some(count) if count <= MOST_HEADER_RECORDS => Some(count as u32),
            _ => None,
        },
        None => Some(0),
    }
}
