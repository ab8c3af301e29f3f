//! Number words and figure words. A number has one writing: no leading zero, no plus, no `-0`.
ghost use Rattle.std.specs.Prelude.{◌≡◌, ℕ, ◌+◌, ◌≤◌, length, ℤ, negsuc, MatchOption};
ghost use Rattle.std.specs.Option.{SomeIff};
ghost use Rattle.std.specs.Str.Parse.{AllDigits, digits_value};
ghost use Rattle.text.specs.Numbers.{some_digits, number_shape, figure_shape, numeral, Writes, Spells, Names};

/// The longest writing of an `i32` has ten digits. A longer word is refused before its digits are read, so no sum overflows.
const MOST_DIGITS: usize = 10;

/// Whether the bytes are one digit or more, and nothing else.
fn is_digits(bytes: &[u8]) -> bool
    ensures { result ≡ some_digits bytes.now }
{
    !bytes.is_empty() && bytes.iter().all(|byte| byte.is_ascii_digit())
}

/// Whether the word is digits, perhaps after a minus: a number word, well written or not.
pub fn is_number(word: &[u8]) -> bool
    ensures { result ≡ number_shape word.now }
{
    match word {
        [b'-', digits @ ..] => is_digits(digits),
        _ => is_digits(word),
    }
}

/// Whether the word is `v` and digits.
pub fn is_figure(word: &[u8]) -> bool
    ensures { result ≡ figure_shape word.now }
{
    match word {
        [b'v', digits @ ..] => is_digits(digits),
        _ => false,
    }
}

/// The number that the digits write, if each byte is a digit.
fn digits_value(digits: &[u8]) -> Option<u64>
    requires { length digits.now ≤ 10 }
    ensures { SomeIff result (AllDigits 10 digits.now) (digits_value 10 digits.now) }
{
    let mut n = 0;
    for byte in digits {
        let digit = (*byte as char).to_digit(10)?;
        n = n * 10 + u64::from(digit);
    }
    Some(n)
}

/// The number that has the digits as its writing.
fn magnitude(digits: &[u8]) -> Option<u64>
    ensures { MatchOption result ((n : ℕ) → Writes digits.now n → ⊥) (λ n. Writes digits.now n) }
{
    match digits {
        [] | [b'0', _, ..] => None,
        _ if digits.len() > MOST_DIGITS => None,
        _ => digits_value(digits),
    }
}

/// The negative integer whose writing is a minus and the digits: not 0.
fn negative(digits: &[u8]) -> Option<i64>
    ensures { MatchOption result ((n : ℕ) → Writes digits.now (n + 1) → ⊥) (λ v. (n : ℕ) × (v ≡ negsuc n) × Writes digits.now (n + 1)) }
{
    let n = magnitude(digits)?;
    if n == 0 {
        return None;
    }
    // at most ten digits, here and below: the cast is proved to lose nothing
    Some(-(n as i64))
}

/// The integer that has the word as its writing.
fn integer(word: &[u8]) -> Option<i64>
    ensures { MatchOption result ((v : ℤ) → Spells word.now v → ⊥) (λ v. Spells word.now v) }
{
    match word {
        [b'-', digits @ ..] => negative(digits),
        _ => {
            let n = magnitude(word)?;
            Some(n as i64)
        }
    }
}

/// The number from `low` to `high` that has the word as its writing.
pub fn number(word: &[u8], low: i32, high: i32) -> Option<i32>
    ensures value { result ≡ numeral low high word.now }
    ensures written { MatchOption result ((v : ℤ) → Names word.now low high v → ⊥) (λ v. Names word.now low high v) }
{
    let value = i32::try_from(integer(word)?).ok()?;
    (low..=high).contains(&value).then_some(value)
}
