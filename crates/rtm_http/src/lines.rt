ghost use Rattle.std.specs.Prelude.{◌≡◌, ℕ, ◌≤◌, List, [], ◌∷◌, ◌++◌, None, IfSome, map, length, All};
ghost use Rattle.httparse.specs.Spans.{IsHeaderWithin, header_bytes};
ghost use Rattle.rtm_http.specs.Lines.{is_named, values_of, has_close, is_close_line, asks_to_close, KeepsRules, Lists};

use crate::number::short_number;
use crate::text::has_close;
use httparse::spans::HeaderSpan;

/// The values of the header lines of one name.
#[derive(Clone, Copy)]
pub(crate) enum Values<'b> {
    None,
    One(&'b [u8]),
    /// Two or more.
    Many,
}

impl<'b> Values<'b> {
    /// These values and one more.
    fn and(self, value: &'b [u8]) -> Values<'b>
        ensures { (values : List (List ℕ)) → Lists values self.entry → Lists (values ++ value.now ∷ []) result }
    {
        match self {
            Values::None => Values::One(value),
            _ => Values::Many,
        }
    }
}

/// Whether the header line has this name, whatever the case of its ASCII letters.
fn is_named(bytes: &[u8], line: &HeaderSpan, name: &[u8]) -> bool
    requires { IsHeaderWithin (length bytes.now) line.now }
    ensures { result ≡ is_named name.now (header_bytes bytes.now line.now) }
{
    line.name.of(bytes).eq_ignore_ascii_case(name)
}

/// The values of the header lines with this name.
fn values_named<'b>(bytes: &'b [u8], lines: &[HeaderSpan], name: &[u8]) -> Values<'b>
    requires { All (IsHeaderWithin (length bytes.now)) lines.now }
    ensures { Lists (values_of name.now (map (header_bytes bytes.now) lines.now)) result }
{
    let mut found = Values::None;
    for line in lines {
        if is_named(bytes, line, name) {
            found = found.and(line.value.of(bytes));
        }
    }
    found
}

/// How many bytes the body has, or None where the header lines break a rule.
pub(crate) fn body_length(bytes: &[u8], lines: &[HeaderSpan]) -> Option<u64>
    requires { All (IsHeaderWithin (length bytes.now)) lines.now }
    ensures kept { IfSome result (λ size. KeepsRules (map (header_bytes bytes.now) lines.now) size) }
    ensures broken { result ≡ None → (size : ℕ) → ¬ (KeepsRules (map (header_bytes bytes.now) lines.now) size) }
{
    let Values::None = values_named(bytes, lines, b"transfer-encoding") else {
        return None;
    };
    match values_named(bytes, lines, b"content-length") {
        Values::None => Some(0),
        Values::One(text) => short_number(text),
        Values::Many => None,
    }
}

/// Whether this is a Connection line that has the element `close`.
fn is_close_line(bytes: &[u8], line: &HeaderSpan) -> bool
    requires { IsHeaderWithin (length bytes.now) line.now }
    ensures { result ≡ is_close_line (header_bytes bytes.now line.now) }
{
    is_named(bytes, line, b"connection") && has_close(line.value.of(bytes))
}

/// Whether some Connection line asks to close the connection.
pub(crate) fn asks_to_close(bytes: &[u8], lines: &[HeaderSpan]) -> bool
    requires { All (IsHeaderWithin (length bytes.now)) lines.now }
    ensures { result ≡ asks_to_close (map (header_bytes bytes.now) lines.now) }
{
    for line in lines {
        if is_close_line(bytes, line) {
            return true;
        }
    }
    false
}
