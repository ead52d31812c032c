//! Lines and words: what stands before a byte, and what follows it.
ghost use Rattle.std.specs.Prelude.{◌≡◌, ◌≢◌, ◌≤◌, ◌+◌, ◌<◌, ℕ, ◌∷◌, length, option_map, slice_index};
ghost use Rattle.text_words.specs.Words.{lines_of, cut_space, after_word};

fn place_of(text: &[u8], byte: u8) -> usize
    ensures within { result ≤ length text.now }
    ensures before { (k : ℕ) → k < result → slice_index text.now k ≢ byte }
    ensures at { result < length text.now → slice_index text.now result ≡ byte }
{
    for (i, b) in text.iter().enumerate() {
        if *b == byte {
            return i;
        }
    }
    text.len()
}

/// The first line, and what follows its line feed, which the last line may lack.
pub fn first_line(text: &[u8]) -> (&[u8], &[u8])
    requires { 0 < length text.now }
    ensures line { lines_of text.now ≡ result.0.now ∷ lines_of result.1.now }
    ensures less { length result.1.now < length text.now }
{
    let end = place_of(text, b'\n');
    if end == text.len() {
        (text, &text[end..])
    } else {
        (&text[..end], &text[end + 1..])
    }
}

/// What stands before the first space, and what stands after it.
pub fn cut_space(text: &[u8]) -> Option<(&[u8], &[u8])>
    ensures { option_map (λ p. (p.0.now, p.1.now)) result ≡ cut_space text.now }
{
    let end = place_of(text, b' ');
    if end == text.len() {
        None
    } else {
        Some((&text[..end], &text[end + 1..]))
    }
}

/// What follows this word and a space, where the line begins with them.
pub fn after_word<'a>(word: &[u8], line: &'a [u8]) -> Option<&'a [u8]>
    ensures { option_map (λ r. r.now) result ≡ after_word word.now line.now }
{
    match cut_space(line) {
        Some((first, rest)) => { if first == word { Some(rest) } else { None } }
        None => None,
    }
}
