//! What a value behind the lock has to show.
ghost use Rattle.std.specs.Prelude.{◌≡◌, ◌^◌, ◌<◌, List, length};

/// A value with a log of its changes and an origin, which contracts alone see.
pub trait Logged {
    type Entry;

    type Origin;

    /// The changes so far, oldest first.
    ghost log: { Self → List Self.Entry };

    /// Where the value came from.
    ghost origin: { Self → Self.Origin };

    /// Any origin. It stands in for that of a token that is spent, of which no clause speaks.
    ghost blank_origin: { Self.Origin };

    /// The length of the log.
    fn count(&self) -> u64
        ensures value { result ≡ length (log self.now) }
        ensures small { result < 2 ^ 62 };
}
