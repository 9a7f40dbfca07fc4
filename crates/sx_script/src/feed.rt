//! Finds where lines end.
ghost use Rattle.std.specs.Prelude.{◌≡◌, ◌+◌, ◌++◌, ◌<◌, ◌∷◌, length, take, drop, IfSome, IfNone};
ghost use Rattle.sx_run.specs.Lines.{HasNoFeed};

use memchr::memchr;

/// The place of the first line feed.
pub(crate) fn feed_at(bytes: &[u8]) -> Option<usize>
    ensures within { IfSome result (λ place. place < length bytes.now) }
    ensures first { IfSome result (λ place. HasNoFeed (take place bytes.now)) }
    ensures found { IfSome result (λ place. bytes.now ≡ take place bytes.now ++ 10 ∷ drop (place + 1) bytes.now) }
    ensures none { IfNone result (HasNoFeed bytes.now) }
{
    memchr(b'\n', bytes)
}
