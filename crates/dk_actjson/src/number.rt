//! The number that a JSON text writes.

ghost use Rattle.std.specs.Prelude.{◌≡◌, ◌==◌, ◌<◌, option_map, slice_index, length, IsTrue, true, false};
ghost use Rattle.serde_json.specs.Read.{number_of, number_from, float_of};
ghost use Rattle.dk_actjson.specs.Number.{num_of};

use fast_float::Numeral;

/// A number: whole where it fits 64 bits, else the nearest float.
#[derive(Clone, Copy, Drop)]
pub(crate) enum Number {
    Unsigned(u64),
    /// Below 0.
    Negative(i64),
    Float(f64),
}

impl Number {
    /// The number of a text of JSON, where it is in range.
    #[inline]
    pub(crate) fn parse(text: &str) -> Option<Number>
        ensures { option_map num_of result ≡ number_of text.now }
    {
        let bytes = text.as_bytes();
        if has_minus(bytes) {
            Number::negative(&Numeral::scan(&bytes[1..]))
        } else {
            Number::unsigned(&Numeral::scan(bytes))
        }
    }

    fn unsigned(numeral: &Numeral<'_>) -> Option<Number>
        ensures { option_map num_of result ≡ number_from false numeral.now }
    {
        match numeral.to_u64() {
            Some(n) => Some(Number::Unsigned(n)),
            None => Number::nearest(false, numeral),
        }
    }

    fn negative(numeral: &Numeral<'_>) -> Option<Number>
        ensures { option_map num_of result ≡ number_from true numeral.now }
    {
        if let Some(n) = numeral.to_i64(true) {
            if n < 0 {
                return Some(Number::Negative(n));
            }
        }
        Number::nearest(true, numeral)
    }

    fn nearest(is_negative: bool, numeral: &Numeral<'_>) -> Option<Number>
        ensures { option_map num_of result ≡ float_of is_negative numeral.now }
    {
        let float = numeral.to_float::<f64>(is_negative);
        if float.is_finite() {
            Some(Number::Float(float))
        } else {
            None
        }
    }
}

fn has_minus(bytes: &[u8]) -> bool
    ensures value { result ≡ (slice_index bytes.now 0 == 45) }
    ensures len { IsTrue result → 0 < length bytes.now }
{
    !bytes.is_empty() && bytes[0] == b'-'
}
