ghost use Rattle.std.specs.Prelude.{◌≡◌, ◌≢◌, IsTrue};
ghost use Rattle.rtm_http.specs.Response.{reason_of, error_of, is_code};

/// The reason that stands behind a status on the status line.
pub(crate) fn reason(status: u16) -> &'static str
    requires { IsTrue (is_code status) }
    ensures { result.now ≡ reason_of status }
{
    match status {
        200 => "OK",
        400 => "Bad Request",
        404 => "Not Found",
        405 => "Method Not Allowed",
        413 => "Content Too Large",
        431 => "Request Header Fields Too Large",
        _ => "Service Unavailable",
    }
}

/// The body of a refusal with this status: 400, 404, 405, 413, 431 or 503.
pub fn error_text(status: u16) -> &'static str
    requires code { IsTrue (is_code status) }
    requires refusal { status ≢ 200 }
    ensures { result.now ≡ error_of status }
{
    match status {
        400 => "{\"error\":\"bad request\"}",
        404 => "{\"error\":\"not found\"}",
        405 => "{\"error\":\"method not allowed\"}",
        413 => "{\"error\":\"content too large\"}",
        431 => "{\"error\":\"header fields too large\"}",
        _ => "{\"error\":\"no memory\"}",
    }
}
