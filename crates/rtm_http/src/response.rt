ghost use Rattle.std.specs.Prelude.{◌≡◌, ◌↔◌, IsTrue, IfOk, OnOk, IsSome, [], ◌++◌, if◌then◌else◌};
ghost use Rattle.std.specs.Fmt.{decimal};
ghost use Rattle.rtm_http.specs.Response.{is_code, response, body_of, status_line, length_line, allow_line, close_line};

use crate::method::Method;
use crate::reply::Reply;
use crate::status::{error_text, reason};
use itoa::Buffer;
use sim_base::{Body, OutOfMemory};
use std::alloc::Global;

/// Appends a piece of a response.
fn put(bytes: &mut Vec<u8>, piece: &[u8]) -> Result<(), OutOfMemory>
    ensures { OnOk result (bytes.new.items ≡ bytes.old.items ++ piece.now) }
{
    bytes.extend_from_slice(piece)?;
    Ok(())
}

/// Appends a number in decimal digits.
fn put_number(bytes: &mut Vec<u8>, number: u64) -> Result<(), OutOfMemory>
    ensures { OnOk result (bytes.new.items ≡ bytes.old.items ++ decimal number) }
{
    put(bytes, Buffer::new().format(number).as_bytes())
}

/// The body that is sent with a reply.
fn body_of(reply: &Reply) -> &[u8]
    ensures { result.now ≡ body_of reply.now }
{
    if reply.status == 503 {
        error_text(503).as_bytes()
    } else {
        reply.body.items()
    }
}

/// Appends the line that tells the length of a body, unless only the head is asked for.
fn put_length(bytes: &mut Vec<u8>, length: usize, head_only: bool) -> Result<(), OutOfMemory>
    ensures { OnOk result (bytes.new.items ≡ bytes.old.items ++ length_line length head_only) }
{
    if head_only {
        return Ok(());
    }
    put(bytes, b"Content-Length: ")?;
    put_number(bytes, length as u64)?;
    put(bytes, b"\r\n")
}

/// Appends the line that tells which method the path takes, if there is one.
fn put_allow(bytes: &mut Vec<u8>, allow: Option<Method>) -> Result<(), OutOfMemory>
    ensures { OnOk result (bytes.new.items ≡ bytes.old.items ++ allow_line allow) }
{
    match allow {
        None => Ok(()),
        Some(method) => {
            put(bytes, b"Allow: ")?;
            put(bytes, method.word().as_bytes())?;
            put(bytes, b"\r\n")
        }
    }
}

/// Appends the line that tells that the connection is closed, if it is.
fn put_close(bytes: &mut Vec<u8>, close: bool) -> Result<(), OutOfMemory>
    ensures { OnOk result (bytes.new.items ≡ bytes.old.items ++ close_line close) }
{
    if close {
        put(bytes, b"Connection: close\r\n")
    } else {
        Ok(())
    }
}

/// Appends the status line.
fn put_status(bytes: &mut Vec<u8>, status: u16) -> Result<(), OutOfMemory>
    requires { IsTrue (is_code status) }
    ensures { OnOk result (bytes.new.items ≡ bytes.old.items ++ status_line status) }
{
    put(bytes, b"HTTP/1.1 ")?;
    put_number(bytes, u64::from(status))?;
    put(bytes, b" ")?;
    put(bytes, reason(status).as_bytes())?;
    put(bytes, b"\r\n")
}

/// Appends the body, unless only the head is asked for.
fn put_body(bytes: &mut Vec<u8>, body: &[u8], head_only: bool) -> Result<(), OutOfMemory>
    ensures { OnOk result (bytes.new.items ≡ bytes.old.items ++ (if head_only then [] else body.now)) }
{
    if head_only { Ok(()) } else { put(bytes, body) }
}

/// The bytes of a response to a request: `close` tells that the connection is closed after it, `head_only` that the method of the
/// request is HEAD.
pub fn respond(
    alloc: Global,
    reply: &Reply,
    close: bool,
    head_only: bool,
) -> Result<Body, OutOfMemory>
    requires code { IsTrue (is_code reply.now.status) }
    requires allow { IsSome reply.now.allow ↔ (reply.now.status ≡ 405) }
    ensures { IfOk result (λ bytes. bytes ≡ response reply.now close head_only) }
{
    let body = body_of(reply);
    let mut bytes = Vec::new(alloc);
    put_status(&mut bytes, reply.status)?;
    put(&mut bytes, b"Content-Type: application/json\r\n")?;
    put_length(&mut bytes, body.len(), head_only)?;
    put_allow(&mut bytes, reply.allow)?;
    put_close(&mut bytes, close)?;
    put(&mut bytes, b"\r\n")?;
    put_body(&mut bytes, body, head_only)?;
    Ok(Body::of(bytes))
}
