ghost use Rattle.std.specs.Prelude.{◌≡◌};
ghost use Rattle.aso_token.specs.Numerals.{number_of};

use aso_num::{Amount, digits_len, parse_amount};

/// The amount that a number's text writes, or `None` where it has more than four decimals or is out of range.
pub fn parse_number(text: &str) -> Option<Amount>
    ensures { result ≡ number_of text.now }
{
    if text.len() - digits_len(text.as_bytes()) > 5 {
        return None;
    }
    parse_amount(text).ok()
}
