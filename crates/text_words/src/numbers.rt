//! Numbers of any length.
ghost use Rattle.std.specs.Prelude.{◌≡◌, ◌≤◌, ◌<◌, ◌-◌, ◌^◌, true, min, take, length, option_map, IfSome};
ghost use Rattle.std.specs.Char.{is_ascii_digit};
ghost use Rattle.std.specs.List.{list_all};
ghost use Rattle.std.specs.Str.Parse.{digits_value};
ghost use Rattle.text_words.specs.Words.{leads, number_of, BeginsWith};

use core::dec2flt::{read_digits, ten_to};

fn are_digits(word: &[u8]) -> bool
    ensures { result ≡ list_all is_ascii_digit word.now }
{
    word.iter().all(|b| b.is_ascii_digit())
}

#[inline(always)]
fn leads(word: &[u8]) -> bool
    ensures { result ≡ leads word.now }
{
    match word {
        [] => false,
        [_] => true,
        [first, _, ..] => *first != b'0',
    }
}

fn saturated(word: &[u8]) -> u128
    requires { list_all is_ascii_digit word.now ≡ true }
    ensures { result ≡ min (digits_value 10 word.now) (2 ^ 128 - 1) }
{
    let mut value: u128 = 0;
    for b in word {
        value = value
            .saturating_mul(10)
            .saturating_add(u128::from(*b - b'0'));
    }
    value
}

/// The number that a word writes in decimal digits, without a zero in front of another digit. The greatest `u128` stands
/// for each greater number, so that no number of a hostile text overflows.
pub fn read_number(word: &[u8]) -> Option<u128>
    ensures { result ≡ option_map (λ n. min n (2 ^ 128 - 1)) (number_of word.now) }
{
    if leads(word) && are_digits(word) {
        Some(saturated(word))
    } else {
        None
    }
}

/// The most digits of a number that surely fits in 64 bits.
const SURE: usize = 19;

// The digits at the front, at most 19 of them: how many they are, and the number that they write.
#[inline(always)]
fn front_digits(text: &[u8]) -> (usize, u64)
    ensures few { result.0 ≤ 19 }
    ensures within { result.0 ≤ length text.now }
    ensures digits { list_all is_ascii_digit (take result.0 text.now) ≡ true }
    ensures value { result.1 ≡ digits_value 10 (take result.0 text.now) }
    ensures bound { result.1 < 10 ^ result.0 }
{
    read_digits(&text[..text.len().min(SURE)], 0, 0)
}

// The digits at the front, at most 38 of them, of which the first 19 are known: how many they are, and the number that they write.
#[cold]
#[inline(never)]
fn more_digits(text: &[u8], value: u64) -> (usize, u128)
    requires within { 19 ≤ length text.now }
    requires digits { list_all is_ascii_digit (take 19 text.now) ≡ true }
    requires value { value ≡ digits_value 10 (take 19 text.now) }
    requires bound { value < 10 ^ 19 }
    ensures within { result.0 ≤ length text.now }
    ensures digits { list_all is_ascii_digit (take result.0 text.now) ≡ true }
    ensures value { result.1 ≡ digits_value 10 (take result.0 text.now) }
{
    let (count, low) = front_digits(&text[SURE..]);
    let high = u128::from(value) * u128::from(ten_to(count as u64));
    (SURE + count, high + u128::from(low))
}

// The number of these digits at the front, and what follows the space after them.
#[inline(always)]
fn cut_digits(text: &[u8], count: usize, value: u128) -> Option<(u128, &[u8])>
    requires within { count ≤ length text.now }
    requires digits { list_all is_ascii_digit (take count text.now) ≡ true }
    requires value { value ≡ digits_value 10 (take count text.now) }
    ensures { IfSome result (λ p. BeginsWith p.0 text.now p.1.now) }
{
    if count == text.len() || text[count] != b' ' || !leads(&text[..count]) {
        return None;
    }
    Some((value, &text[count + 1..]))
}

/// The number at the front of a text and what follows the space after it, if they are there and the number has at most 38
/// digits. It goes once through the digits.
#[inline(always)]
pub fn cut_number(text: &[u8]) -> Option<(u128, &[u8])>
    ensures { IfSome result (λ p. BeginsWith p.0 text.now p.1.now) }
{
    let (count, value) = front_digits(text);
    if count < SURE {
        return cut_digits(text, count, u128::from(value));
    }
    let (count, value) = more_digits(text, value);
    cut_digits(text, count, value)
}

/// The number at the front of a text and what follows the space after it, if they are there and the number has at most 18
/// digits, as most have. It costs less than `cut_number`.
#[inline(always)]
pub fn cut_short_number(text: &[u8]) -> Option<(u64, &[u8])>
    ensures { IfSome result (λ p. BeginsWith p.0 text.now p.1.now) }
{
    let (count, value) = front_digits(text);
    if count >= SURE || count == text.len() || text[count] != b' ' || !leads(&text[..count]) {
        return None;
    }
    Some((value, &text[count + 1..]))
}
