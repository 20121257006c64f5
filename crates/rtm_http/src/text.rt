ghost use Rattle.std.specs.Prelude.{◌≡◌, ◌≤◌, ◌==◌, length, reverse};
ghost use Rattle.std.specs.List.{position_or_len};
ghost use Rattle.httparse.specs.Grammar.{is_ows, skip_ows, trim_ows};
ghost use Rattle.rtm_http.specs.Lines.{is_close, has_close};

/// A space or a tab.
fn is_ows(byte: u8) -> bool
    ensures { result ≡ is_ows byte }
{
    byte == b' ' || byte == b'\t'
}

/// The text from its first byte on that is neither space nor tab.
fn without_front(text: &[u8]) -> &[u8]
    ensures { result.now ≡ skip_ows text.now }
{
    let mut rest = text;
    while let Some((first, others)) = rest.split_first() {
        if !is_ows(*first) {
            break;
        }
        rest = others;
    }
    rest
}

/// The text up to its last byte that is neither space nor tab.
fn without_back(text: &[u8]) -> &[u8]
    ensures { reverse result.now ≡ skip_ows (reverse text.now) }
{
    let mut rest = text;
    while let Some((last, others)) = rest.split_last() {
        if !is_ows(*last) {
            break;
        }
        rest = others;
    }
    rest
}

/// The text without the spaces and tabs at both ends.
fn trimmed(text: &[u8]) -> &[u8]
    ensures { result.now ≡ trim_ows text.now }
{
    without_back(without_front(text))
}

/// Whether the element of a list is `close`.
fn is_close(element: &[u8]) -> bool
    ensures { result ≡ is_close element.now }
{
    trimmed(element).eq_ignore_ascii_case(b"close")
}

/// Whether a list, whose elements commas part, has the element `close`.
pub(crate) fn has_close(list: &[u8]) -> bool
    ensures { result ≡ has_close list.now }
{
    list.split(|byte| *byte == b',')
        .any(|element| is_close(element))
}

/// How many bytes of a target are its path: those up to the first `?`.
pub(crate) fn path_length(target: &[u8]) -> usize
    ensures { result ≡ position_or_len (λ b. b == 63) target.now }
{
    target
        .iter()
        .position(|byte| *byte == b'?')
        .unwrap_or(target.len())
}

/// How many bytes the first segment of a text has: those up to the first slash.
pub(crate) fn segment_length(text: &[u8]) -> usize
    ensures place { result ≡ position_or_len (λ b. b == 47) text.now }
    ensures within { result ≤ length text.now }
{
    text.iter()
        .position(|byte| *byte == b'/')
        .unwrap_or(text.len())
}
