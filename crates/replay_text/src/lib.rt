// Words of a row of text: where one ends, and the number that a word denotes.
#![tactic(auto)]

ghost use Rattle.std.specs.Prelude.{◌≡◌, ◌≤◌, ◌<◌, ◌==◌, MatchOption};
ghost use Rattle.std.specs.List.{position_or_len};
ghost use Rattle.replay_text.specs.Words.{end_of};
ghost use Rattle.replay_text.specs.Numbers.{digit_of, value_of, spelled, number_of};

// The index of the first such byte, or the length of a text without one.
fn first(text: &[u8], byte: u8) -> usize
    ensures { result ≡ position_or_len (λ x. x == byte) text.now }
{
    text.iter().position(|x| *x == byte).unwrap_or(text.len())
}

// The index of the first such byte from `at` on, or the end of the text.
pub fn end_of(text: &[u8], at: usize, byte: u8) -> usize
    ensures { result ≡ end_of text.now at byte }
{
    if text.len() <= at {
        return text.len();
    }
    at + first(&text[at..], byte)
}

// The value of a digit of the base, as `char::to_digit` has it, but without capital letters.
#[tactic(auto, using(std::proofs::lemmas::Bool::Decides::nat_tests), unfolding(crate::specs::Numbers::digit_of))]
fn digit(byte: u8, base: u64) -> Option<u64>
    requires { base ≤ 16 }
    ensures { MatchOption result (base ≤ digit_of byte) (λ d. (d ≡ digit_of byte) × (d < base)) }
{
    let value = u64::from(match byte {
        b'0'..=b'9' => byte - b'0',
        b'a'..=b'f' => byte - b'a' + 10,
        _ => return None,
    });
    if base <= value {
        return None;
    }
    Some(value)
}

// The number of this sign and size, unless the size is over 2^63 - 1.
// Form: `negative` is the word's sign, a part of the value as much as the size.
fn value(size: u64, negative: bool) -> Option<i64>
    ensures { result ≡ value_of negative size }
{
    let n = i64::try_from(size).ok()?;
    Some(if negative { -n } else { n })
}

// The number with these digits.
#[tactic(auto, using(crate::proofs::Reading::none, crate::proofs::Reading::first, crate::proofs::Reading::last, crate::proofs::Reading::turn, crate::proofs::Reading::no_digit, crate::proofs::Reading::too_large))]
fn spelled(digits: &[u8], base: u64, negative: bool) -> Option<i64>
    requires { (8 ≤ base) × (base ≤ 16) }
    ensures { result ≡ spelled base negative digits.now }
{
    if digits.is_empty() {
        return None;
    }
    let mut size: u64 = 0;
    for byte in digits {
        let d = digit(*byte, base)?;
        size = size.checked_mul(base)?.checked_add(d)?;
    }
    value(size, negative)
}

// The number that a word denotes: decimal digits, optionally after a minus sign; or x and eight hexadecimal digits, the
// bits of a float.
#[tactic(auto, using(std::proofs::lemmas::Bool::Decides::nat_tests), unfolding(crate::specs::Numbers::number_of))]
pub fn number_of(word: &[u8]) -> Option<i64>
    ensures { result ≡ number_of word.now }
{
    match word {
        [] => None,
        [b'-', digits @ ..] => spelled(digits, 10, true),
        [b'x', digits @ ..] => {
            if digits.len() != 8 {
                return None;
            }
            spelled(digits, 16, false)
        }
        _ => spelled(word, 10, false),
    }
}
