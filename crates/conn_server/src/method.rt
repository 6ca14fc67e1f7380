//! The methods of requests (RFC 9110, section 9).

ghost use Rattle.std.specs.Prelude.{◌≡◌};
ghost use Rattle.conn_server.specs.Asked.{is_head, is_served};

/// Whether a method is served: GET and HEAD are.
pub(crate) fn is_served(method: &[u8]) -> bool
    ensures { result ≡ is_served method.now }
{
    method == b"GET".as_slice() || is_head(method)
}

/// Whether the reply to a method has no body.
pub(crate) fn is_head(method: &[u8]) -> bool
    ensures { result ≡ is_head method.now }
{
    method == b"HEAD".as_slice()
}
