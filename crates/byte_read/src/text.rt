//! Texts that end in a 0.

ghost use Rattle.std.specs.Prelude.{◌≡◌, ◌==◌, ◌<◌, length, IfSome};
ghost use Rattle.std.specs.List.{position};

use memchr::memchr;

/// How many bytes stand before the first 0.
#[inline(always)]
pub(crate) fn text_size(bytes: &[u8]) -> Option<usize>
    ensures value { result ≡ position (λ x. x == 0) bytes.now }
    ensures within { IfSome result (λ size. size < length bytes.now) }
{
    memchr(0, bytes)
}
