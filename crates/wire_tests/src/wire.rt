//! What no clause says: that memory suffices, and the printed bytes of replies.

mod heads;
mod heads_apart;
mod replies;
