ghost use Rattle.std.specs.Prelude.{◌≡◌};
ghost use Rattle.rtm_http.specs.Route.{method_word};

/// A method that some route has.
#[derive(Clone, Copy, Debug, PartialEq, Eq)]
pub enum Method {
    Get,
    Post,
}

impl Method {
    /// The word by which a request names the method.
    pub fn word(self) -> &'static str
        ensures { result.now ≡ method_word self }
    {
        match self {
            Method::Get => "GET",
            Method::Post => "POST",
        }
    }
}
