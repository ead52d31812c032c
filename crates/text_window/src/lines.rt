//! Lines that stand whole in a text of which more may follow.
ghost use Rattle.std.specs.Prelude.{◌≡◌, ◌≢◌, ◌≤◌, ◌<◌, ℕ, length, slice_index, IfNone, IfSome};
ghost use Rattle.text_window.specs.Lines.{IsWholeLine, LacksFeed};

// The place of the first line feed, or the length of the text.
fn place_of_feed(text: &[u8]) -> usize
    ensures within { result ≤ length text.now }
    ensures before { (k : ℕ) → k < result → slice_index text.now k ≢ 10 }
    ensures at { result < length text.now → slice_index text.now result ≡ 10 }
{
    for (i, b) in text.iter().enumerate() {
        if *b == b'\n' {
            return i;
        }
    }
    text.len()
}

/// The first line, where its line feed stands in the text, and what follows that.
pub fn whole_line(text: &[u8]) -> Option<(&[u8], &[u8])>
    ensures line { IfSome result (λ p. IsWholeLine text.now p.0.now p.1.now) }
    ensures none { IfNone result (LacksFeed text.now) }
{
    let end = place_of_feed(text);
    if end == text.len() {
        None
    } else {
        Some((&text[..end], &text[end + 1..]))
    }
}
