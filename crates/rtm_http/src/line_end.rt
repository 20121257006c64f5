ghost use Rattle.std.specs.Prelude.{◌≡◌, ◌≢◌, ◌+◌, ◌<◌, ◌≤◌, ℕ, List, [], ◌∷◌, ◌++◌, Some, true, false, length, take};
ghost use Rattle.std.specs.Option.{option_copied};
ghost use Rattle.httparse.specs.Grammar.{LineEnd, print_end};
ghost use Rattle.httparse.specs.Pieces.{is_newline};
ghost use Rattle.rtm_http.specs.Pieces.{IsHeadEnd};

/// The text without the line end that it ends in, CR LF or LF alone, or None where it ends in no line end.
fn before_line_end(text: &[u8]) -> Option<&[u8]>
    ensures { (line : List ℕ) (last : ℕ) (end : LineEnd) → last ≢ 13
        → text.now ≡ (line ++ last ∷ []) ++ print_end end
        → option_copied result ≡ Some (line ++ last ∷ []) }
{
    let Some((feed, rest)) = text.split_last() else {
        return None;
    };
    if *feed != b'\n' {
        return None;
    }
    let Some((before, line)) = rest.split_last() else {
        return Some(rest);
    };
    if *before == b'\r' {
        Some(line)
    } else {
        Some(rest)
    }
}

/// Whether the byte is one of a line end.
fn is_newline(byte: u8) -> bool
    ensures { result ≡ is_newline byte }
{
    byte == b'\r' || byte == b'\n'
}

/// Whether the text ends in a line that is not empty and then an empty one.
fn ends_head(text: &[u8]) -> bool
    ensures { IsHeadEnd text.now → result ≡ true }
{
    let Some(lines) = before_line_end(text) else {
        return false;
    };
    let Some(line) = before_line_end(lines) else {
        return false;
    };
    match line.split_last() {
        Some((byte, _)) => !is_newline(*byte),
        None => false,
    }
}

/// Whether such an end stands in the text, behind its first `seen` bytes.
pub(crate) fn has_head_end(text: &[u8], seen: usize) -> bool
    ensures { result ≡ false → (k : ℕ) → seen ≤ k → k < length text.now → ¬ (IsHeadEnd (take (k + 1) text.now)) }
{
    for place in seen..text.len() {
        if ends_head(&text[..place + 1]) {
            return true;
        }
    }
    false
}
