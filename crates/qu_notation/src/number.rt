ghost use Rattle.std.specs.Prelude.{◌≡◌};
ghost use Rattle.qu_notation.specs.Numbers.{number_of};
ghost use Rattle.qu_notation.specs.Digits.{with_digit};

/// The number that a word of decimal digits writes; leading zeros are allowed.
///
/// `None` exactly where there is no digit, another byte, or a number of 2^64 or more.
#[tactic(auto, using(crate::proofs::TextFacts::number_facts))]
pub fn read_number(word: &[u8]) -> Option<u64>
    ensures { result ≡ number_of word.now }
{
    if word.is_empty() {
        return None;
    }
    let mut number = 0;
    for byte in word {
        number = append_digit(number, *byte)?;
    }
    Some(number)
}

/// The number with one more digit behind its own.
fn append_digit(number: u64, byte: u8) -> Option<u64>
    ensures { result ≡ with_digit number byte }
{
    if !byte.is_ascii_digit() {
        return None;
    }
    number.checked_mul(10)?.checked_add(u64::from(byte - b'0'))
}
