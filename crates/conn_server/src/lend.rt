//! Lending the objects to a connection.

ghost use Rattle.std.specs.Prelude.{◌≡◌};
ghost use Rattle.conn_server.specs.Tallied.{HasRowIn};

use crate::objects::Objects;
use dbgd_metrics::{Book, Share};

/// Lends these objects.
pub(crate) fn lend<'a, T: Drop, L: Drop>(
    hand: &'a mut T,
    links: &'a mut [L],
    book: &'a Book,
    share: &'a mut Share,
) -> Objects<'a, T, L>
    requires { HasRowIn book.now share.old }
    ensures these { (result.hand.ghost_name ≡ hand.entry.ghost_name)
        × (result.links.ghost_name ≡ links.entry.ghost_name)
        × (result.share.ghost_name ≡ share.entry.ghost_name) }
    ensures as_they_are { (result.hand.now ≡ hand.old) × (result.links.now ≡ links.old)
        × (result.book.now ≡ book.now) × (result.share.now ≡ share.old) }
{
    Objects {
        hand,
        links,
        book,
        share,
    }
}
