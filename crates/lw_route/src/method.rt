ghost use Rattle.std.specs.Prelude.{◌≡◌};
ghost use Rattle.lw_route.specs.Methods.{methods_text};

/// The method of a request (RFC 9110, section 9.3). HEAD asks for what GET asks for.
#[derive(Clone, Copy, Debug, PartialEq, Eq)]
pub enum Method {
    Get,
    Post,
    Delete,
    Other,
}

/// Whether requests are taken that change something.
#[derive(Clone, Copy, Debug, PartialEq, Eq)]
pub enum Commands {
    On,
    Off,
}

/// The methods that a resource has. Where it has GET, it has HEAD.
#[derive(Clone, Copy, Debug, PartialEq, Eq)]
pub enum Allowed {
    Get,
    GetAndPost,
    GetAndDelete,
}

impl Allowed {
    /// As the field `Allow` lists them (RFC 9110, section 10.2.1).
    pub fn text(&self) -> &'static str
        ensures { result.now ≡ methods_text self.now }
    {
        match self {
            Allowed::Get => "GET, HEAD",
            Allowed::GetAndPost => "GET, HEAD, POST",
            Allowed::GetAndDelete => "GET, HEAD, DELETE",
        }
    }
}
