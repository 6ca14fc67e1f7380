//! That no two shares of a table have one row.
ghost use Rattle.std.specs.Prelude.{◌≡◌, true, false};
ghost use Rattle.dbgd_metrics.specs.Shares.{HaveOneRow, HaveOtherRows};

use crate::book::Book;
use crate::plays::{Clashes, NeverComes};
use crate::share::Share;

impl Book {
    /// Shows that two shares of this table have different rows, where both have one, and gives them
    /// back as they were. No word is loaded: it is called for its clause alone.
    pub fn tell_apart(&self, one: Share, other: Share) -> (Share, Share)
        requires one { one.book ≡ self.now.id }
        requires other { other.book ≡ self.now.id }
        ensures same { (result.0 ≡ one) × (result.1 ≡ other) }
        ensures apart { HaveOtherRows one other }
    {
        if have_one_row(&one, &other) {
            self.refute(one, other);
        }
        (one, other)
    }

    // Two shares can't have one row: joined they would be a seat that the rule knows none of.
    fn refute(&self, one: Share, other: Share) -> !
        requires one { one.book ≡ self.now.id }
        requires other { other.book ≡ self.now.id }
        requires row { HaveOneRow one other }
    {
        let shared = &self.table.shared;
        let mut token = one.into_token();
        shared.join_seat::<Clashes>(&mut token, other.into_token());
        let _never = shared.load::<NeverComes>(&mut token, 0);
        unreachable!()
    }
}

// Whether both have a row, and the same.
fn have_one_row(one: &Share, other: &Share) -> bool
    ensures yes { result ≡ true → HaveOneRow one.now other.now }
    ensures no { result ≡ false → HaveOtherRows one.now other.now }
{
    match (one.row, other.row) {
        (Some(first), Some(second)) => first == second,
        _ => false,
    }
}
