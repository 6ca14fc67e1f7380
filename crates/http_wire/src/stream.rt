//! What is known of a stream.

/// A stream of bytes, as contracts see it. It has no calls: a sink is one that can be written, and
/// what is both read and written shows both sides at once, so that each call can say that it left
/// the other side as it was. Each object counts its own faults.
pub trait Stream {
    ghost use Rattle.http_wire.specs.Stream.{ShownStream};

    /// What it shows at a moment. Its two counts of faults never fall, and stand still at 2^64 - 1.
    ghost shows: { Self → ShownStream };
}
