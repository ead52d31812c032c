//! Decimal digits, written where they are to stand.
ghost use Rattle.std.specs.Prelude.{ℕ, true, ◌≡◌, ◌≤◌, ◌<◌, ◌+◌, ◌-◌, ◌*◌, ◌/◌, ◌%◌, ◌^◌, ◌++◌, length, take, decimal};
ghost use Rattle.trace_writer.specs.Digits.{IsRaised, low_digits, side_by_side, worth_of_four};

/// Eight digits have as many values.
pub(crate) const EIGHT: u64 = 100_000_000;

/// Sixteen digits have as many values.
const SIXTEEN: u64 = 10_000_000_000_000_000;

/// What a number is multiplied by, with its last 43 bits dropped, in place of a division by 10^16: 2^117 divided by it.
const RECIPROCAL: u128 = 16_615_349_947_311_448_411;

/// Eight bytes `0`.
const ZEROS: u64 = 3_472_328_296_227_680_304;

// What is in front of a number's last sixteen digits, and these.
#[inline(always)]
fn cut(number: u128) -> (u128, u64)
    ensures high { result.0 ≡ number / 10 ^ 16 }
    ensures low { result.1 ≡ number % 10 ^ 16 }
{
    let high = near_front(number);
    let below = high * u128::from(SIXTEEN);
    if below <= number && number - below < 2 * u128::from(SIXTEEN) {
        let rest = (number - below) as u64;
        return if rest < SIXTEEN {
            (high, rest)
        } else {
            (high + 1, rest - SIXTEEN)
        };
    }
    cut_by_division(number)
}

// What is in front of a number's last sixteen digits, or one less, where the number is below 2^107; else any number.
#[inline(always)]
fn near_front(number: u128) -> u128
    ensures { result < 2 ^ 64 }
{
    // 2^43, 2^64 and, 2^117 divided by the first of them, 2^74
    let high = number / 8_796_093_022_208 % 18_446_744_073_709_551_616;
    high * RECIPROCAL / 18_889_465_931_478_580_854_784
}

// So by a division, which takes longer.
#[cold]
#[inline(never)]
fn cut_by_division(number: u128) -> (u128, u64)
    ensures high { result.0 ≡ number / 10 ^ 16 }
    ensures low { result.1 ≡ number % 10 ^ 16 }
{
    let high = number / u128::from(SIXTEEN);
    (high, (number - high * u128::from(SIXTEEN)) as u64)
}

/// Writes the digits of a number past 64 bits from the first place on, sooner where it has `len` digits, and says where they end.
#[inline(never)]
pub(crate) fn put_past_word(bytes: &mut [u8], len: usize, number: u128) -> usize
    requires room { 48 ≤ length bytes.old }
    ensures few { result ≤ 39 }
    ensures text { take result bytes.new ≡ decimal number }
{
    if put_again(bytes, len, number) {
        return len;
    }
    put_number(bytes, 0, number)
}

// Writes the digits of a number where it has `len` digits, 25 to 32, and says whether it has: so it does, but for a few numbers.
#[inline(always)]
fn put_again(bytes: &mut [u8], len: usize, number: u128) -> bool
    requires room { 48 ≤ length bytes.old }
    ensures few { result ≡ true → len ≤ 32 }
    ensures text { result ≡ true → take len bytes.new ≡ decimal number }
{
    let high = near_front(number) as u64;
    let low = number.wrapping_sub(u128::from(high) * u128::from(SIXTEEN));
    let top = high / EIGHT;
    let raised = top * raise_of(len);
    if raised < 10_000_000 || raised >= EIGHT || low >= u128::from(SIXTEEN) {
        return false;
    }
    put_block(bytes, 0, &eight_digits(raised as u32), len - 24);
    put_eight(bytes, len - 24, (high - top * EIGHT) as u32);
    put_sixteen(bytes, len - 16, low as u64);
    true
}

// What a number is multiplied by that has 24 digits fewer than `len`, so that it has eight; 0 where there is no such.
#[inline(always)]
fn raise_of(len: usize) -> u64
    ensures few { result ≤ 10 ^ 7 }
    ensures raised { (n : ℕ) → 10 ^ 7 ≤ n * result → n * result < 10 ^ 8 → IsRaised n (len - 24) (n * result) }
    ensures long { 1 ≤ result → 25 ≤ len }
{
    match len {
        25 => 10_000_000,
        26 => 1_000_000,
        27 => 100_000,
        28 => 10_000,
        29 => 1_000,
        30 => 100,
        31 => 10,
        32 => 1,
        _ => 0,
    }
}

/// Writes the digits of a number from place `at` on, and says where they end.
pub(crate) fn put_number(bytes: &mut [u8], at: usize, number: u128) -> usize
    requires room { at + 40 ≤ length bytes.old }
    ensures end { result ≡ at + length (decimal number) }
    ensures few { result ≤ at + 39 }
    ensures text { take result bytes.new ≡ take at bytes.old ++ decimal number }
{
    if number <= u128::from(u64::MAX) {
        return put_short(bytes, at, number as u64);
    }
    let (high, low) = cut(number);
    let end = put_high(bytes, at, high);
    put_sixteen(bytes, end, low);
    end + 16
}

// So of one with 23 digits at most.
#[inline(always)]
fn put_high(bytes: &mut [u8], at: usize, number: u128) -> usize
    requires room { at + 24 ≤ length bytes.old }
    requires few { number < 10 ^ 23 }
    ensures end { result ≡ at + length (decimal number) }
    ensures text { take result bytes.new ≡ take at bytes.old ++ decimal number }
{
    if number <= u128::from(u64::MAX) {
        return put_short(bytes, at, number as u64);
    }
    put_wide(bytes, at, number)
}

// So of such a one past 64 bits.
#[inline(never)]
fn put_wide(bytes: &mut [u8], at: usize, number: u128) -> usize
    requires room { at + 24 ≤ length bytes.old }
    requires long { 10 ^ 16 ≤ number }
    requires few { number < 10 ^ 23 }
    ensures end { result ≡ at + length (decimal number) }
    ensures text { take result bytes.new ≡ take at bytes.old ++ decimal number }
{
    let (high, low) = cut(number);
    let end = put_few(bytes, at, high as u32);
    put_sixteen(bytes, end, low);
    end + 16
}

/// Writes the digits of a number within 64 bits from place `at` on, and says where they end.
#[inline(always)]
pub(crate) fn put_short(bytes: &mut [u8], at: usize, number: u64) -> usize
    requires room { at + 24 ≤ length bytes.old }
    ensures end { result ≡ at + length (decimal number) }
    ensures text { take result bytes.new ≡ take at bytes.old ++ decimal number }
{
    if number < EIGHT {
        put_few(bytes, at, number as u32)
    } else if number < SIXTEEN {
        put_middle(bytes, at, number)
    } else {
        put_long(bytes, at, number)
    }
}

// So of a number with nine digits or more, and sixteen at most.
#[inline(always)]
fn put_middle(bytes: &mut [u8], at: usize, number: u64) -> usize
    requires long { 10 ^ 8 ≤ number }
    requires short { number < 10 ^ 16 }
    requires room { at + 16 ≤ length bytes.old }
    ensures end { result ≡ at + length (decimal number) }
    ensures text { take result bytes.new ≡ take at bytes.old ++ decimal number }
{
    let end = put_few(bytes, at, (number / EIGHT) as u32);
    put_eight(bytes, end, (number % EIGHT) as u32);
    end + 8
}

// So of one with seventeen digits or more.
#[inline(never)]
fn put_long(bytes: &mut [u8], at: usize, number: u64) -> usize
    requires long { 10 ^ 16 ≤ number }
    requires room { at + 24 ≤ length bytes.old }
    ensures end { result ≡ at + length (decimal number) }
    ensures text { take result bytes.new ≡ take at bytes.old ++ decimal number }
{
    let end = put_few(bytes, at, (number / SIXTEEN) as u32);
    put_sixteen(bytes, end, number % SIXTEEN);
    end + 16
}

/// Writes the digits of a number that has at most eight.
#[inline(always)]
pub(crate) fn put_few(bytes: &mut [u8], at: usize, number: u32) -> usize
    requires few { number < 10 ^ 8 }
    requires room { at + 8 ≤ length bytes.old }
    ensures end { result ≡ at + length (decimal number) }
    ensures text { take result bytes.new ≡ take at bytes.old ++ decimal number }
{
    let (count, raised) = raised(number);
    put_block(bytes, at, &eight_digits(raised), count)
}

// How many digits a number has, and the number of eight digits that begins with these.
#[inline(always)]
fn raised(number: u32) -> (usize, u32)
    requires { number < 10 ^ 8 }
    ensures { IsRaised number result.0 result.1 }
{
    if number < 10_000 {
        raised_of_short(number)
    } else {
        raised_of_long(number)
    }
}

// So of a number of at most four digits.
#[inline(always)]
fn raised_of_short(number: u32) -> (usize, u32)
    requires { number < 10_000 }
    ensures { IsRaised number result.0 result.1 }
{
    match number {
        0..=9 => (1, number * 10_000_000),
        10..=99 => (2, number * 1_000_000),
        100..=999 => (3, number * 100_000),
        _ => (4, number * 10_000),
    }
}

// So of one of five digits or more.
#[inline(always)]
fn raised_of_long(number: u32) -> (usize, u32)
    requires long { 10_000 ≤ number }
    requires few { number < 10 ^ 8 }
    ensures { IsRaised number result.0 result.1 }
{
    match number {
        0..=99_999 => (5, number * 1_000),
        100_000..=999_999 => (6, number * 100),
        1_000_000..=9_999_999 => (7, number * 10),
        _ => (8, number),
    }
}

// Writes the last sixteen digits of a number, those in front that are 0 too.
#[inline(always)]
fn put_sixteen(bytes: &mut [u8], at: usize, low: u64)
    requires room { at + 16 ≤ length bytes.old }
    requires few { low < 10 ^ 16 }
    ensures text { take (at + 16) bytes.new ≡ take at bytes.old ++ low_digits 16 low }
{
    put_eight(bytes, at, (low / EIGHT) as u32);
    put_eight(bytes, at + 8, (low % EIGHT) as u32);
}

/// Writes the last eight digits of a number, those in front that are 0 too.
#[inline(always)]
pub(crate) fn put_eight(bytes: &mut [u8], at: usize, low: u32)
    requires room { at + 8 ≤ length bytes.old }
    requires few { low < 10 ^ 8 }
    ensures text { take (at + 8) bytes.new ≡ take at bytes.old ++ low_digits 8 low }
{
    put_block(bytes, at, &eight_digits(low), 8);
}

/// Writes the first bytes of a block at a place, and says where they end. The whole block is written, since that many bytes are copied
/// faster than a number of them that isn't known.
#[inline(always)]
pub(crate) fn put_block(bytes: &mut [u8], at: usize, block: &[u8], len: usize) -> usize
    requires room { at + length block.now ≤ length bytes.old }
    requires within { len ≤ length block.now }
    ensures end { result ≡ at + len }
    ensures text { take result bytes.new ≡ take at bytes.old ++ take len block.now }
{
    let end = at + block.len();
    bytes[at..end].copy_from_slice(block);
    at + len
}

// The last eight digits of a number, those in front that are 0 too.
#[inline(always)]
fn eight_digits(low: u32) -> [u8; 8]
    requires { low < 100_000_000 }
    ensures { result ≡ low_digits 8 low }
{
    word_of_eight(low).to_le_bytes()
}

// Eight digits as the bytes of a number, the first digit lowest.
#[inline(always)]
fn word_of_eight(low: u32) -> u64
    requires { low < 100_000_000 }
    ensures { result ≡ worth_of_four (low / 10_000) + worth_of_four (low % 10_000) * 4_294_967_296 }
{
    let pairs = pairs_of(low / 10_000, low % 10_000);
    ZEROS + pairs * 256 - tens_of(pairs) * 2_559
}

// Four digits and four more by twos, side by side.
#[inline(always)]
fn pairs_of(first: u32, second: u32) -> u64
    requires first { first < 10_000 }
    requires second { second < 10_000 }
    ensures { result ≡ side_by_side (first / 100) (first % 100) (second / 100) (second % 100) }
{
    let halves = u64::from(first) + u64::from(second) * 4_294_967_296;
    halves * 65_536 - hundreds_of(halves) * 6_553_599
}

// How many hundreds two numbers of four digits have that stand side by side, 32 bits for each, and in the same way.
#[inline(always)]
fn hundreds_of(halves: u64) -> u64
    requires { halves < 10_000 * 2 ^ 32 }
    ensures { (a b : ℕ) → a < 10_000 → b < 10_000 → halves ≡ a + b * 4_294_967_296 → result ≡ a / 100 + b / 100 * 4_294_967_296 }
{
    // 10486 hundredths are 2^20, nearly
    let both = halves * 10_486 / 1_048_576;
    both % 128 + both / 4_294_967_296 * 4_294_967_296
}

// How many tens four numbers of two digits have that stand side by side, and in the same way.
#[inline(always)]
fn tens_of(pairs: u64) -> u64
    requires { pairs < 100 * 2 ^ 48 }
    ensures { (a b c d : ℕ) → a < 100 → b < 100 → c < 100 → d < 100 → pairs ≡ side_by_side a b c d
        → result ≡ side_by_side (a / 10) (b / 10) (c / 10) (d / 10) }
{
    // 103 tenths are 2^10, nearly
    let all = pairs * 103 / 1_024;
    all % 16
        + all / 65_536 % 16 * 65_536
        + all / 4_294_967_296 % 16 * 4_294_967_296
        + all / 281_474_976_710_656 * 281_474_976_710_656
}

/// Writes a text at a place, and says where it ends. A short one is written by its first and its last bytes, which may be the same ones:
/// so many bytes are copied faster than a number of them that isn't known.
#[inline(always)]
pub(crate) fn put_name(bytes: &mut [u8], at: usize, name: &[u8]) -> usize
    requires room { at + length name.now ≤ length bytes.old }
    ensures end { result ≡ at + length name.now }
    ensures text { take result bytes.new ≡ take at bytes.old ++ name.now }
{
    match name.len() {
        1..=2 => put_ends(bytes, at, name, 1),
        3..=4 => put_ends(bytes, at, name, 2),
        5..=8 => put_ends(bytes, at, name, 4),
        9..=16 => put_ends(bytes, at, name, 8),
        17..=32 => put_ends(bytes, at, name, 16),
        _ => put_whole(bytes, at, name),
    }
}

// Writes a text by its first bytes and its last ones, so many of each.
#[inline(always)]
fn put_ends(bytes: &mut [u8], at: usize, text: &[u8], some: usize) -> usize
    requires room { at + length text.now ≤ length bytes.old }
    requires within { some ≤ length text.now }
    requires whole { length text.now ≤ 2 * some }
    ensures end { result ≡ at + length text.now }
    ensures text { take result bytes.new ≡ take at bytes.old ++ text.now }
{
    let end = at + text.len();
    bytes[at..at + some].copy_from_slice(&text[..some]);
    bytes[end - some..end].copy_from_slice(&text[text.len() - some..]);
    end
}

// Writes a text of any length.
#[inline(never)]
fn put_whole(bytes: &mut [u8], at: usize, text: &[u8]) -> usize
    requires room { at + length text.now ≤ length bytes.old }
    ensures end { result ≡ at + length text.now }
    ensures text { take result bytes.new ≡ take at bytes.old ++ text.now }
{
    let end = at + text.len();
    bytes[at..end].copy_from_slice(text);
    end
}
