use rtm_http::{
    Call, HeadPieces, HeadRead, Method, Reply, Routed, Routes, error_text, read_head, respond,
};
use sim_base::{Body, Name, Time};
use std::test::Fail;

/// What a whole head should be read as.
struct Row {
    head: &'static str,
    method: &'static str,
    path: &'static str,
    close: bool,
    body: u64,
}

/// Whether these bytes are read as a whole head of this row, which all of them are but the last `behind`.
fn is_read_as(bytes: &[u8], row: &Row, behind: usize) -> bool {
    let HeadRead::Whole(head) = read_head(bytes) else {
        return false;
    };
    head.method.of(bytes) == row.method.as_bytes()
        && head.path.of(bytes) == row.path.as_bytes()
        && head.close == row.close
        && head.body == row.body
        && bytes.len() - behind.min(bytes.len()) == head.len as usize
}

/// The heads of curl 7.88.1, wget 1.21.3, `http.client` of Python 3 and w3m 0.5.3, as they came over a socket of 127.0.0.1.
const CLIENTS: [Row; 6] = [
    Row {
        head: "GET /now HTTP/1.1\r\nHost: 127.0.0.1:8199\r\nUser-Agent: curl/7.88.1\r\nAccept: */*\r\n\r\n",
        method: "GET",
        path: "/now",
        close: false,
        body: 0,
    },
    Row {
        head: "POST /pause HTTP/1.1\r\nHost: 127.0.0.1:8199\r\nUser-Agent: curl/7.88.1\r\nAccept: */*\r\nContent-Length: 0\r\nContent-Type: application/x-www-form-urlencoded\r\n\r\n",
        method: "POST",
        path: "/pause",
        close: false,
        body: 0,
    },
    Row {
        head: "GET /parts HTTP/1.1\r\nHost: 127.0.0.1:8199\r\nUser-Agent: Wget/1.21.3\r\nAccept: */*\r\nAccept-Encoding: identity\r\nConnection: Keep-Alive\r\n\r\n",
        method: "GET",
        path: "/parts",
        close: false,
        body: 0,
    },
    Row {
        head: "GET /stuck HTTP/1.1\r\nHost: 127.0.0.1:8199\r\nAccept-Encoding: identity\r\n\r\n",
        method: "GET",
        path: "/stuck",
        close: false,
        body: 0,
    },
    Row {
        head: "POST /tick/r0 HTTP/1.1\r\nHost: 127.0.0.1:8199\r\nAccept-Encoding: identity\r\nContent-Length: 0\r\n\r\n",
        method: "POST",
        path: "/tick/r0",
        close: false,
        body: 0,
    },
    Row {
        head: "GET /progress HTTP/1.0\r\nUser-Agent: w3m/0.5.3+git20230121\r\nAccept: text/html, text/*;q=0.5, image/*, application/*\r\nAccept-Encoding: gzip, compress, bzip, bzip2, deflate\r\nAccept-Language: en;q=1.0\r\nHost: 127.0.0.1:8199\r\n\r\n",
        method: "GET",
        path: "/progress",
        close: true,
        body: 0,
    },
];

/// Heads that are read whole, made by hand.
const WHOLE: [Row; 9] = [
    Row {
        head: "GET /now HTTP/1.1\n\n",
        method: "GET",
        path: "/now",
        close: false,
        body: 0,
    },
    Row {
        head: "\r\n\nHEAD /now HTTP/1.1\r\n\r\n",
        method: "HEAD",
        path: "/now",
        close: false,
        body: 0,
    },
    Row {
        head: "GET /now?at=5?6 HTTP/1.1\r\n\r\n",
        method: "GET",
        path: "/now",
        close: false,
        body: 0,
    },
    Row {
        head: "GET ? HTTP/1.1\r\n\r\n",
        method: "GET",
        path: "",
        close: false,
        body: 0,
    },
    Row {
        head: "GET / HTTP/1.1\r\nCONNECTION:  keep-alive , Close \r\n\r\n",
        method: "GET",
        path: "/",
        close: true,
        body: 0,
    },
    Row {
        head: "GET / HTTP/1.1\r\nConnection: a\r\nConnection: close\r\n\r\n",
        method: "GET",
        path: "/",
        close: true,
        body: 0,
    },
    Row {
        head: "GET / HTTP/1.1\r\nConnection: closed, no close\r\n\r\n",
        method: "GET",
        path: "/",
        close: false,
        body: 0,
    },
    Row {
        head: "POST /leave HTTP/1.1\r\ncontent-length: \t0004097 \r\n\r\n",
        method: "POST",
        path: "/leave",
        close: false,
        body: 4097,
    },
    Row {
        head: "PUT / HTTP/1.1\r\nContent-Length: 999999999999999999\r\n\r\n",
        method: "PUT",
        path: "/",
        close: false,
        body: 999_999_999_999_999_999,
    },
];

#[test]
fn whole_heads_are_read(rt: HostRuntime) -> Result<(), Fail> {
    for row in &CLIENTS {
        assert!(rt; is_read_as(row.head.as_bytes(), row, 0), "{}", row.head);
    }
    for row in &WHOLE {
        assert!(rt; is_read_as(row.head.as_bytes(), row, 0), "{}", row.head);
        let mut bytes = Vec::from_slice(rt.alloc(), row.head.as_bytes())?;
        bytes.extend_from_slice(b"\0GET")?;
        assert!(rt; is_read_as(&bytes, row, 4), "{}", row.head);
    }
    Ok(())
}

/// Heads that break a rule, and bytes that are none.
const BAD: [&str; 14] = [
    "GET / HTTP/1.1\r\nTransfer-Encoding: chunked\r\n\r\n",
    "GET / HTTP/1.1\r\nTRANSFER-ENCODING: identity\r\n\r\n",
    "POST / HTTP/1.1\r\nContent-Length: 1\r\nContent-Length: 1\r\n\r\n",
    "POST / HTTP/1.1\r\nContent-Length: 1, 1\r\n\r\n",
    "POST / HTTP/1.1\r\nContent-Length: +1\r\n\r\n",
    "POST / HTTP/1.1\r\nContent-Length: -1\r\n\r\n",
    "POST / HTTP/1.1\r\nContent-Length:\r\n\r\n",
    "POST / HTTP/1.1\r\nContent-Length: 0x1\r\n\r\n",
    "POST / HTTP/1.1\r\nContent-Length: 1000000000000000000\r\n\r\n",
    "GET / HTTP/2.0\r\n\r\n",
    "GET / HTTP/1.1\r\n a: b\r\n\r\n",
    "GET / HTTP/1.1\r\na b: c\r\n\r\n",
    "GET /\0 HTTP/1.1",
    " GET",
];

#[test]
fn broken_heads_are_bad_and_cut_ones_may_go_on(rt: HostRuntime) {
    for head in &BAD {
        assert_eq!(rt; read_head(head.as_bytes()), HeadRead::Bad, "{head}");
    }
    let head = b"GET /now HTTP/1.1\r\nHost: x\r\n\r\n";
    for n in 0..head.len() {
        assert_eq!(rt; read_head(&head[..n]), HeadRead::More, "cut to {n} bytes");
    }
}

#[test]
fn a_head_has_64_lines_and_16384_bytes(rt: HostRuntime) -> Result<(), Fail> {
    let mut bytes = Vec::from_slice(rt.alloc(), b"GET / HTTP/1.1\r\n")?;
    for _ in 0..64 {
        bytes.extend_from_slice(b"a: b\r\n")?;
    }
    let mut more = Vec::from_slice(rt.alloc(), &bytes)?;
    bytes.extend_from_slice(b"\r\n")?;
    assert!(rt; matches!(read_head(&bytes), HeadRead::Whole(_)));
    more.extend_from_slice(b"a: b\r\n\r\n")?;
    assert_eq!(rt; read_head(&more), HeadRead::TooLarge);

    let mut long = Vec::from_slice(rt.alloc(), b"GET / HTTP/1.1\r\na: ")?;
    long.resize(16383, b'b')?;
    assert_eq!(rt; read_head(&long), HeadRead::More);
    long.push(b'b')?;
    assert_eq!(rt; read_head(&long), HeadRead::TooLarge);
    long.truncate(16380);
    long.extend_from_slice(b"\r\n\r\n")?;
    assert!(rt; matches!(read_head(&long), HeadRead::Whole(_)));
    Ok(())
}

#[test]
fn a_head_in_pieces_is_found_with_its_last_byte(rt: HostRuntime) {
    for row in &CLIENTS {
        let bytes = row.head.as_bytes();
        let mut pieces = HeadPieces::new();
        for n in 0..bytes.len() {
            assert_eq!(rt;
                pieces.read(&bytes[..n]),
                HeadRead::More,
                "{n} bytes of {}",
                row.head
            );
        }
        assert_eq!(rt; pieces.read(bytes), read_head(bytes), "{}", row.head);
    }
}

/// Paths that lead to something without a name.
const CALLS: [(&str, &str, Call); 12] = [
    ("GET", "/now", Call::Now),
    ("GET", "/parts", Call::Parts),
    ("GET", "/buffers", Call::Buffers),
    ("GET", "/progress", Call::Progress),
    ("GET", "/stuck", Call::Stuck),
    ("GET", "/wait/0", Call::Wait(Time(0))),
    ("GET", "/wait/5000", Call::Wait(Time(5000))),
    (
        "GET",
        "/wait/500000000000",
        Call::Wait(Time(500_000_000_000)),
    ),
    ("POST", "/pause", Call::Pause),
    ("POST", "/continue", Call::Continue),
    ("POST", "/leave", Call::Leave),
    ("GET", "/part/R0", Call::Part(None)),
];

/// Requests that lead nowhere.
const REFUSED: [(&str, &str, Routed); 22] = [
    ("GET", "/wait/01", Routed::BadNumber),
    ("GET", "/wait/500000000001", Routed::BadNumber),
    ("GET", "/wait/+5", Routed::BadNumber),
    ("GET", "/wait/5x", Routed::BadNumber),
    (
        "POST",
        "/wait/01",
        Routed::WrongMethod { allow: Method::Get },
    ),
    ("HEAD", "/now", Routed::WrongMethod { allow: Method::Get }),
    ("POST", "/now", Routed::WrongMethod { allow: Method::Get }),
    ("get", "/now", Routed::WrongMethod { allow: Method::Get }),
    (
        "DELETE",
        "/part/r0",
        Routed::WrongMethod { allow: Method::Get },
    ),
    (
        "GET",
        "/tick/r0",
        Routed::WrongMethod {
            allow: Method::Post,
        },
    ),
    (
        "GET",
        "/pause",
        Routed::WrongMethod {
            allow: Method::Post,
        },
    ),
    (
        "",
        "/leave",
        Routed::WrongMethod {
            allow: Method::Post,
        },
    ),
    ("DELETE", "/", Routed::NoRoute),
    ("GET", "", Routed::NoRoute),
    ("GET", "/part/", Routed::NoRoute),
    ("GET", "/part/r0/", Routed::NoRoute),
    ("GET", "/part/r0/field/", Routed::NoRoute),
    ("GET", "/part//field/sent", Routed::NoRoute),
    ("GET", "/wait/", Routed::NoRoute),
    ("GET", "/now/", Routed::NoRoute),
    ("GET", "/part/r0/field/sent/", Routed::NoRoute),
    ("GET", "http://x/now", Routed::NoRoute),
];

/// Whether this path leads to a part of this name, by GET, and its other form to a tick of that part, by POST.
fn leads_to_part(routes: &Routes, path: &str, tick: &str, name: &str) -> bool {
    let part = Routed::Call(Call::Part(Name::read(name.as_bytes())));
    let ticked = Routed::Call(Call::Tick(Name::read(name.as_bytes())));
    routes.route(b"GET", path.as_bytes()) == part
        && routes.route(b"POST", tick.as_bytes()) == ticked
}

/// Whether this path leads to a field of a part of these names.
fn leads_to_field(routes: &Routes, path: &str, name: &str, word: &str) -> bool {
    let field = Call::Field(Name::read(name.as_bytes()), Name::read(word.as_bytes()));
    routes.route(b"GET", path.as_bytes()) == Routed::Call(field)
}

#[test]
fn paths_lead_where_the_table_says(rt: HostRuntime) -> Result<(), Fail> {
    let routes = Routes::open(rt.alloc())?;
    for (method, path, call) in &CALLS {
        let routed = routes.route(method.as_bytes(), path.as_bytes());
        assert!(rt; routed == Routed::Call(*call), "{method} {path}");
    }
    assert!(rt; leads_to_part(&routes, "/part/r0", "/tick/r0", "r0"));
    assert!(rt; leads_to_part(&routes, "/part/%72", "/tick/%72", "%72"));
    assert!(rt; leads_to_field(&routes, "/part/r0/field/sent", "r0", "sent"));
    assert!(rt; leads_to_field(&routes, "/part/field/field/field", "field", "field"));
    assert!(rt; leads_to_field(&routes, "/part/r0/field/-", "r0", "-"));
    Ok(())
}

#[test]
fn requests_are_refused_in_order(rt: HostRuntime) -> Result<(), Fail> {
    let routes = Routes::open(rt.alloc())?;
    for (method, path, refused) in &REFUSED {
        let routed = routes.route(method.as_bytes(), path.as_bytes());
        assert!(rt; routed == *refused, "{method} {path}");
    }
    assert!(rt; routes.route(b"GET", b"/part/\xff") == Routed::NoRoute);
    Ok(())
}

#[test]
fn responses_have_these_bytes(rt: HostRuntime) -> Result<(), Fail> {
    let now = Reply {
        status: 200,
        allow: None,
        body: Body::of(Vec::from_slice(rt.alloc(), b"{\"at\":0}")?),
    };
    assert_eq!(rt;
        respond(rt.alloc(), &now, false, false)?.items(),
        b"HTTP/1.1 200 OK\r\nContent-Type: application/json\r\nContent-Length: 8\r\n\r\n{\"at\":0}".as_slice()
    );
    let other = Reply {
        status: 405,
        allow: Some(Method::Get),
        body: Body::of(Vec::from_slice(rt.alloc(), error_text(405).as_bytes())?),
    };
    assert_eq!(rt;
        respond(rt.alloc(), &other, false, true)?.items(),
        b"HTTP/1.1 405 Method Not Allowed\r\nContent-Type: application/json\r\nAllow: GET\r\n\r\n".as_slice()
    );
    let memory = Reply {
        status: 503,
        allow: None,
        body: Body::of(Vec::new(rt.alloc())),
    };
    assert_eq!(rt;
        respond(rt.alloc(), &memory, true, false)?.items(),
        b"HTTP/1.1 503 Service Unavailable\r\nContent-Type: application/json\r\nContent-Length: 21\r\nConnection: close\r\n\r\n{\"error\":\"no memory\"}".as_slice()
    );
    Ok(())
}

#[test]
fn refusals_have_these_bodies(rt: HostRuntime) -> Result<(), Fail> {
    let rows: [(u16, &str, &str); 5] = [
        (400, "400 Bad Request", "{\"error\":\"bad request\"}"),
        (404, "404 Not Found", "{\"error\":\"not found\"}"),
        (
            413,
            "413 Content Too Large",
            "{\"error\":\"content too large\"}",
        ),
        (
            431,
            "431 Request Header Fields Too Large",
            "{\"error\":\"header fields too large\"}",
        ),
        (503, "503 Service Unavailable", "{\"error\":\"no memory\"}"),
    ];
    for (status, line, body) in &rows {
        let reply = Reply {
            status: *status,
            allow: None,
            body: Body::of(Vec::from_slice(rt.alloc(), body.as_bytes())?),
        };
        let text = respond(rt.alloc(), &reply, true, false)?;
        let length = body.len();
        let wanted = format!(in rt.alloc();
            "HTTP/1.1 {line}\r\nContent-Type: application/json\r\nContent-Length: {length}\r\nConnection: close\r\n\r\n{body}"
        )?;
        assert_eq!(rt; text.items(), wanted.as_bytes());
    }
    Ok(())
}
