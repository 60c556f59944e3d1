//! Numerals of a bounded length.

ghost use Rattle.std.specs.Prelude.{◌≡◌, ◌<◌, ◌≤◌, ◌^◌, IfSome};
ghost use Rattle.pfx_kinds_decimal.specs.Numerals.{number_in};

/// The number that 1 to `most` decimal digits write. Any other text has none.
#[tactic(auto, unfolding(crate::specs::Numerals::number_in))]
pub fn number_in(most: usize, text: &[u8]) -> Option<u64>
    requires { most ≤ 19 }
    ensures value { result ≡ number_in most text.now }
    ensures within { IfSome result (λ n. n < 10 ^ most) }
{
    if text.is_empty() || text.len() > most {
        return None;
    }
    let mut value = 0;
    'digits: for byte in text {
        if !byte.is_ascii_digit() {
            return None;
        }
        value = value * 10 + u64::from(*byte - b'0');
    }
    Some(value)
}
