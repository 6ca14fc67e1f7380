//! The objects that a connection is lent.

ghost use Rattle.conn_server.specs.Tallied.{HasRowIn};

use dbgd_metrics::{Book, Share};

/// The objects that a connection is lent. The token of the index's lock goes beside them, since it is
/// given up for each hold. What they show at a moment is a stage (`specs/Objects.antt`).
#[derive(Drop)]
pub(crate) struct Objects<'a, T: Drop, L: Drop> {
    pub hand: &'a mut T,
    pub links: &'a mut [L],
    /// The counters.
    pub book: &'a Book,
    /// The share of the counters in which the requests are counted.
    pub share: &'a mut Share,
    pub ghost row: { HasRowIn book.now share.now },
}
