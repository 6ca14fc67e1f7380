//! Counting.
ghost use Rattle.std.specs.Prelude.{◌≡◌, ◌<◌, ◌+◌, ◌^◌, IsSome, true};
ghost use Rattle.dbgd_metrics.specs.Counts.{HasReplyStatus, Counts, has_room};
ghost use Rattle.dbgd_metrics.specs.Numbers.{grown, number_of_row};
ghost use Rattle.dbgd_metrics.specs.declared.count.Count.TheVariants.{Request, Pass};

use crate::book::Book;
use crate::count::{Count, Counted};
use crate::number::{Number, RouteName};
use crate::plays::{Adds, Reads};
use crate::share::Share;

impl Book {
    // Whether one of the share's numbers may grow by so much.
    fn has_room(&self, share: &mut Share, number: Number, k: u64) -> bool
        requires book { share.old.book ≡ self.now.id }
        requires row { IsSome share.old.row }
        ensures value { result ≡ has_room share.old.numbers number k }
        ensures same { share.new ≡ share.old }
    {
        let word = share.word(number);
        k <= u64::MAX - self.table.shared.load::<Reads>(&mut share.token, word)
    }

    // Adds to one of the share's numbers, in its row.
    fn add(&self, share: &mut Share, number: Number, k: u64)
        requires book { share.old.book ≡ self.now.id }
        requires row { IsSome share.old.row }
        requires room { has_room share.old.numbers number k ≡ true }
        ensures { share.new ≡ record share.old { numbers = grown share.old.numbers number k } }
    {
        let word = share.word(number);
        self.table
            .shared
            .fetch_add::<Adds>(&mut share.token, word, k);
    }

    fn count_request(&self, share: &mut Share, route: RouteName, status: u16, bytes: u64) -> Counted
        requires book { share.old.book ≡ self.now.id }
        requires row { IsSome share.old.row }
        requires status { HasReplyStatus (Request route status bytes) }
        ensures { Counts (Request route status bytes) share.old share.new result }
    {
        let requests = Number::Requests { route, status };
        if self.has_room(share, requests, 1) && self.has_room(share, Number::Bytes, bytes) {
            self.add(share, requests, 1);
            self.add(share, Number::Bytes, bytes);
            return Counted::Done;
        }
        share.marked = true;
        Counted::Full
    }

    fn count_pass(&self, share: &mut Share, added: u64, replaced: u64, dropped: u64) -> Counted
        requires book { share.old.book ≡ self.now.id }
        requires row { IsSome share.old.row }
        ensures { Counts (Pass added replaced dropped) share.old share.new result }
    {
        if self.has_room(share, Number::Added, added)
            && self.has_room(share, Number::Replaced, replaced)
            && self.has_room(share, Number::Dropped, dropped)
            && self.has_room(share, Number::Passes, 1)
        {
            self.add(share, Number::Added, added);
            self.add(share, Number::Replaced, replaced);
            self.add(share, Number::Dropped, dropped);
            self.add(share, Number::Passes, 1);
            return Counted::Done;
        }
        share.marked = true;
        Counted::Full
    }

    /// Counts what happened, in the share and in its row alike. A count that doesn't fit is
    /// refused, which marks the share for good.
    pub fn count(&self, share: &mut Share, what: Count) -> Counted
        requires book { share.old.book ≡ self.now.id }
        requires row { IsSome share.old.row }
        requires status { HasReplyStatus what }
        ensures counts { Counts what share.old share.new result }
        ensures same { (share.new.book ≡ share.old.book) × (share.new.row ≡ share.old.row) }
    {
        match what {
            Count::Request {
                route,
                status,
                bytes,
            } => self.count_request(share, route, status, bytes),
            Count::Pass {
                added,
                replaced,
                dropped,
            } => self.count_pass(share, added, replaced, dropped),
        }
    }
}
