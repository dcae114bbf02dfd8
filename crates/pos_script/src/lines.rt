//! Lines and words.
ghost use Rattle.std.specs.Prelude.{◌≡◌, ◌<◌, ◌≤◌, ◌+◌, ◌∷◌, [], length, take, drop, MatchOption, IfSome, IfNone, ◌++◌, ℕ, List};
ghost use Rattle.std.specs.List.{list_all};
ghost use Rattle.pos_script.specs.Lines.{lines_of, pieces, words_of, without_cr, is_quiet, is_space, is_plain, complete_lines, last_line, unfinished};

/// Returns where a byte is in a text for the first time, or the text's length if it isn't there.
fn find_byte(text: &[u8], at: u8) -> usize
    ensures bound { result ≤ length text.now }
    ensures cut { result < length text.now
        → pieces at text.now ≡ take result text.now ∷ pieces at (drop (result + 1) text.now) }
    ensures whole { result ≡ length text.now → pieces at text.now ≡ text.now ∷ [] }
{
    for (place, byte) in text.iter().enumerate() {
        if *byte == at {
            return place;
        }
    }
    text.len()
}

/// Returns the front of a text up to a byte, and what follows that byte, if it is there.
pub fn cut(text: &[u8], at: u8) -> (&[u8], Option<&[u8]>)
    ensures pieces { MatchOption result.1 (pieces at text.now ≡ result.0.now ∷ [])
        (λ rest. pieces at text.now ≡ result.0.now ∷ pieces at rest.now) }
    ensures shorter { IfSome result.1 (λ rest. length rest.now < length text.now) }
    ensures whole { IfNone result.1 (result.0.now ≡ text.now) }
{
    let end = find_byte(text, at);
    if end == text.len() {
        return (text, None);
    }
    (&text[..end], Some(&text[end + 1..]))
}

/// Returns the first word of a line and the rest of the line, or `None` if there is no word.
pub fn next_word(line: &[u8]) -> Option<(&[u8], &[u8])>
    ensures { MatchOption result (words_of line.now ≡ [])
        (λ found. words_of line.now ≡ found.0.now ∷ words_of found.1.now) }
{
    let mut left = line;
    loop {
        let end = find_byte(left, b' ');
        if end == left.len() {
            return if left.is_empty() {
                None
            } else {
                Some((left, b""))
            };
        }
        if end > 0 {
            return Some((&left[..end], &left[end + 1..]));
        }
        left = &left[1..];
    }
}

/// Returns a line without a carriage return at its end.
pub(crate) fn strip_cr(line: &[u8]) -> &[u8]
    ensures { result.now ≡ without_cr line.now }
{
    let len = line.len();
    if len > 0 && line[len - 1] == b'\r' {
        &line[..len - 1]
    } else {
        line
    }
}

/// Returns the first line of a text and the rest of the text, or `None` if there is no line.
pub fn next_line(text: &[u8]) -> Option<(&[u8], &[u8])>
    ensures lines { MatchOption result (lines_of text.now ≡ [])
        (λ found. lines_of text.now ≡ found.0.now ∷ lines_of found.1.now) }
    ensures shorter { IfSome result (λ found. length found.1.now < length text.now) }
{
    let (front, rest) = cut(text, b'\n');
    match rest {
        Some(rest) => Some((strip_cr(front), rest)),
        None if front.is_empty() => None,
        None => Some((front, b"")),
    }
}

/// Returns whether a line is nothing but spaces.
pub(crate) fn all_spaces(line: &[u8]) -> bool
    ensures { result ≡ list_all is_space line.now }
{
    line.iter().all(|b| *b == 32)
}

/// Returns whether a byte is a space or a sign that ASCII prints, 0x20 to 0x7E.
pub(crate) fn is_plain_byte(b: u8) -> bool
    ensures { result ≡ is_plain b }
{
    32 <= b && b <= 126
}

/// Returns whether each byte of a line is a space or a sign that ASCII prints.
pub fn all_plain(line: &[u8]) -> bool
    ensures { result ≡ list_all is_plain line.now }
{
    line.iter().all(|b| is_plain_byte(*b))
}

/// Returns whether a line prints nothing: it is empty or nothing but spaces, or its first byte is `#`.
pub fn is_quiet_line(line: &[u8]) -> bool
    ensures { result ≡ is_quiet line.now }
{
    line.is_empty() || line[0] == b'#' || all_spaces(line)
}

/// Says that the lines of a script are those that a line feed ended, and the last if it isn't empty.
pub fn lines_fall_in_two()
    ensures { (bytes : List ℕ) → lines_of bytes ≡ complete_lines bytes ++ last_line (unfinished bytes) }
{}

/// Says how a script that is cut in two falls into lines: what is unfinished of its front goes on with what comes after
/// it, wherever the cut is.
pub fn lines_go_on()
    ensures lines { (front piece : List ℕ)
        → complete_lines (front ++ piece) ≡ complete_lines front ++ complete_lines (unfinished front ++ piece) }
    ensures rest { (front piece : List ℕ) → unfinished (front ++ piece) ≡ unfinished (unfinished front ++ piece) }
{}
