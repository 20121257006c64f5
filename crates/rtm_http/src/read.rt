ghost use Rattle.std.specs.Prelude.{◌≡◌, ◌≤◌, length};
ghost use Rattle.httparse.specs.Grammar.{RequestHead};
ghost use Rattle.httparse.specs.Spans.{IsWithin, span_bytes, IsRequestWithin, IsRequestAt};
ghost use Rattle.rtm_http.specs.Head.{front, longest_head, most_lines, path_of, Covers, IsReadOf, IsRead};

use crate::head::{Head, HeadRead};
use crate::lines::{asks_to_close, body_length};
use crate::span::Span;
use crate::text::path_length;
use httparse::spans::{self, EMPTY_HEADER_SPAN, HeaderSpan, RequestSpans, parse_request};
use httparse::{Error, Status};

/// The most bytes of a head.
pub const LONGEST_HEAD: usize = 16_384;

/// The most header lines of a head.
pub const MOST_LINES: usize = 64;

/// The place of the path, where the target has this place.
fn path_span(bytes: &[u8], target: spans::Span) -> Span
    requires short { length bytes.now ≤ longest_head }
    requires within { IsWithin (length bytes.now) target }
    ensures { Covers bytes.now result (path_of (span_bytes bytes.now target)) }
{
    Span {
        begin: target.start as u32,
        end: (target.start + path_length(target.of(bytes))) as u32,
    }
}

/// The first bytes, which alone are looked at.
fn front(bytes: &[u8]) -> &[u8]
    ensures { result.now ≡ front bytes.now }
{
    if bytes.len() <= LONGEST_HEAD {
        bytes
    } else {
        &bytes[..LONGEST_HEAD]
    }
}

/// What is read from a whole head, whose parts stand at these places.
fn whole_head(bytes: &[u8], lines: &[HeaderSpan], places: &RequestSpans) -> HeadRead
    requires short { length bytes.now ≤ longest_head }
    requires few { length lines.now ≤ most_lines }
    requires within { IsRequestWithin bytes.now lines.now places.now }
    ensures { (h : RequestHead) → IsRequestAt bytes.now lines.now places.now h → IsReadOf bytes.now h result }
{
    let lines = &lines[..places.headers];
    let Some(body) = body_length(bytes, lines) else {
        return HeadRead::Bad;
    };
    HeadRead::Whole(Head {
        len: places.len as u32,
        method: Span {
            begin: places.method.start as u32,
            end: places.method.end as u32,
        },
        path: path_span(bytes, places.path),
        close: places.version == 0 || asks_to_close(bytes, lines),
        body,
    })
}

/// What the bytes are that were read so far: a whole head at their front, the beginning of one, or neither. It takes no memory.
pub fn read_head(bytes: &[u8]) -> HeadRead
    ensures { IsRead bytes.now result }
{
    let front = front(bytes);
    let mut lines = [EMPTY_HEADER_SPAN; MOST_LINES];
    match parse_request(front, &mut lines) {
        Ok(Status::Complete(places)) => whole_head(front, &lines, &places),
        Ok(Status::Partial) if bytes.len() < LONGEST_HEAD => HeadRead::More,
        Ok(Status::Partial) => HeadRead::TooLarge,
        Err(error) => match error {
            Error::TooManyHeaders => HeadRead::TooLarge,
            _ => HeadRead::Bad,
        },
    }
}
