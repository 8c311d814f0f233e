//! Numbers written in decimal digits.

ghost use Rattle.std.specs.Prelude.{◌≡◌};
ghost use Rattle.aec_engine.specs.Numerals.{decimal_in, range_in};
ghost use Rattle.aec_engine.specs.Scripts.{value_in};

/// Parses a text of digits alone as a number of 64 bits.
#[tactic(auto, using(crate::proofs::NumeralLemmas::digits_alone))]
pub(crate) fn parse_decimal(text: &str) -> Option<u64>
    ensures { result ≡ decimal_in 64 text.now }
{
    let has_plus = text.starts_with('+');
    if has_plus {
        return None;
    }
    text.parse().ok()
}

/// Parses a text of digits, after a minus or nothing, as a signed number of 64 bits.
#[tactic(auto, using(crate::proofs::ValueLemmas::digits_after_a_minus))]
pub(crate) fn parse_signed(text: &str) -> Option<i64>
    ensures { result ≡ value_in text.now }
{
    if text.starts_with('+') {
        return None;
    }
    text.parse().ok()
}

/// Returns the two numbers of `FIRST:LEN`, written only in digits, with one colon between them.
pub fn parse_range(text: &str) -> Option<(u64, u64)>
    ensures { result ≡ range_in text.now }
{
    let (first, len) = text.split_once(':')?;
    Some((parse_decimal(first)?, parse_decimal(len)?))
}
