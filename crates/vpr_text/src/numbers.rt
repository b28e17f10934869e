//! The numbers of a text.

ghost use Rattle.std.specs.Prelude.{◌≡◌, ◌&&◌, ◌^◌, ◌≤◌, nat_lt, if◌then◌else◌, ◌-◌, Some, None, length};
ghost use Rattle.std.specs.List.{list_all, position, before_first, after_first};
ghost use Rattle.vpr_text.specs.Numbers.{is_digit, value_after, is_whole, number_of, is_point, is_pointed, fixed_of, without_sign, is_exponent_sign, is_exponent, is_unsigned, is_decimal};

fn is_digit(byte: u8) -> bool
    ensures { result ≡ is_digit byte }
{
    b'0' <= byte && byte <= b'9'
}

fn is_point(byte: u8) -> bool
    ensures { result ≡ is_point byte }
{
    byte == b'.'
}

fn is_exponent_sign(byte: u8) -> bool
    ensures { result ≡ is_exponent_sign byte }
{
    byte == b'e' || byte == b'E'
}

fn without_sign(word: &[u8]) -> &[u8]
    ensures { result.now ≡ without_sign word.now }
{
    match word {
        [b'+' | b'-', rest @ ..] => rest,
        _ => word,
    }
}

fn are_digits(word: &[u8]) -> bool
    ensures { result ≡ list_all is_digit word.now }
{
    word.iter().all(|b| is_digit(*b))
}

fn point_at(word: &[u8]) -> Option<usize>
    ensures { result ≡ position is_point word.now }
{
    word.iter().position(|b| is_point(*b))
}

fn exponent_at(word: &[u8]) -> Option<usize>
    ensures { result ≡ position is_exponent_sign word.now }
{
    word.iter().position(|b| is_exponent_sign(*b))
}

/// What is before and after the point.
fn around_point(word: &[u8]) -> (&[u8], &[u8])
    ensures before { result.0.now ≡ before_first is_point word.now }
    ensures after { result.1.now ≡ after_first is_point word.now }
{
    match point_at(word) {
        Some(i) => (&word[..i], &word[i + 1..]),
        None => (word, &word[word.len()..]),
    }
}

/// The value of the digits after those of `value`, if they are digits and it fits.
fn value_after(value: u64, digits: &[u8]) -> Option<u64>
    ensures { result
        ≡ (if list_all is_digit digits.now && nat_lt (value_after value digits.now) (2 ^ 64)
        then Some (value_after value digits.now) else None) }
{
    let mut total = value;
    for byte in digits {
        if !is_digit(*byte) {
            return None;
        }
        let digit = u64::from(*byte - b'0');
        if total > (u64::MAX - digit) / 10 {
            return None;
        }
        total = total * 10 + digit;
    }
    Some(total)
}

fn is_whole(word: &[u8]) -> bool
    ensures { result ≡ is_whole word.now }
{
    !word.is_empty() && are_digits(word)
}

/// The number of a word of digits: one or more, with a value of at most 4294967295.
pub fn number(word: &[u8]) -> Option<u32>
    ensures { result ≡ number_of word.now }
{
    if word.is_empty() {
        return None;
    }
    let value = value_after(0, word)?;
    if value > 0xffff_ffff {
        return None;
    }
    Some(value as u32)
}

/// The number of a word of digits with at most one point, at least one digit and at most nine
/// decimals, in units of 10^-9, if it is at most 2^64 - 1.
pub fn fixed(word: &[u8]) -> Option<u64>
    ensures { result ≡ fixed_of word.now }
{
    let (whole, decimals) = around_point(word);
    if whole.is_empty() && decimals.is_empty() {
        return None;
    }
    if decimals.len() > 9 {
        return None;
    }
    let value = value_after(0, whole)?;
    let value = value_after(value, decimals)?;
    let missing = 9 - decimals.len() as u32;
    value.checked_mul(10u64.pow(missing))
}

fn is_pointed(word: &[u8]) -> bool
    ensures { result ≡ is_pointed word.now }
{
    let (whole, decimals) = around_point(word);
    let is_filled = !whole.is_empty() || !decimals.is_empty();
    is_filled && are_digits(whole) && are_digits(decimals)
}

fn is_unsigned(word: &[u8]) -> bool
    ensures { result ≡ is_unsigned word.now }
{
    match exponent_at(word) {
        Some(i) => is_pointed(&word[..i]) && is_whole(without_sign(&word[i + 1..])),
        None => is_pointed(word),
    }
}

/// Whether a word is a decimal: an optional sign, digits with at most one point and at least one
/// digit, and then optionally `e` or `E`, an optional sign and one or more digits.
pub fn is_decimal(word: &[u8]) -> bool
    ensures { result ≡ is_decimal word.now }
{
    is_unsigned(without_sign(word))
}
