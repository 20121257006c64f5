ghost use Rattle.std.specs.Prelude.{◌≡◌, None, IfSome};
ghost use Rattle.std.specs.Str.Parse.{digits_value};
ghost use Rattle.rtm_http.specs.Lines.{IsNumber};

/// The most digits of a number that is read.
const MOST_DIGITS: usize = 18;

/// The number that 1 to 18 decimal digits say, or None where the text is anything else.
pub(crate) fn short_number(text: &[u8]) -> Option<u64>
    ensures some { IfSome result (λ n. IsNumber text.now × (n ≡ digits_value 10 text.now)) }
    ensures none { result ≡ None → ¬ (IsNumber text.now) }
{
    if text.is_empty() || text.len() > MOST_DIGITS {
        return None;
    }
    let mut number = 0u64;
    for digit in text {
        if !digit.is_ascii_digit() {
            return None;
        }
        number = number * 10 + u64::from(*digit - b'0');
    }
    Some(number)
}
