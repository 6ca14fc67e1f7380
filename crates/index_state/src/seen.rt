//! How the rows' names stand to a listing.

ghost use Rattle.std.specs.Prelude.{◌≡◌, ◌+◌, ◌-◌, ◌<◌, ◌≤◌, ◌^◌};
ghost use Rattle.row_types.specs.Name.{stamp_at};
ghost use Rattle.scan_queue.specs.Names.{IsByPath};
ghost use Rattle.index_state.specs.Seen.{behind, plan_by, seen_in_all, seen_more};

use crate::answer::Plan;
use row_types::{CanonPath, Name, Stamp};
use std::cmp::Ordering;

/// How many of the rows' names stand so to a listing.
#[derive(Clone, Copy)]
pub(crate) struct Seen {
    /// Their path isn't listed.
    pub(crate) unlisted: u64,
    /// Their path is listed with another stamp.
    pub(crate) changed: u64,
    /// They are listed.
    pub(crate) listed: u64,
}

impl Seen {
    /// Counts a name of this stamp, whose path is listed with that one.
    pub(crate) fn count(&mut self, found: Option<Stamp>, stamp: Stamp)
        requires { seen_in_all self.old < 2 ^ 64 - 1 }
        ensures { self.new ≡ seen_more found stamp self.old }
    {
        match found {
            Some(other) => {
                if stamp == other {
                    self.listed += 1;
                } else {
                    self.changed += 1;
                }
            }
            None => self.unlisted += 1,
        }
    }

    /// What a pass has to do over so many listed names.
    pub(crate) fn plan(self, files: u64) -> Plan
        requires { self.changed + self.listed ≤ files }
        ensures { result ≡ plan_by files self }
    {
        Plan {
            files,
            add: files - (self.changed + self.listed),
            replace: self.changed,
            drop: self.unlisted,
            keep: self.listed,
        }
    }
}

/// The stamp of the name with the path, and the names behind the path.
pub(crate) fn pass_to<'a>(names: &'a [Name], path: &CanonPath) -> (Option<Stamp>, &'a [Name])
    requires { IsByPath names.now }
    ensures stamp { result.0 ≡ stamp_at names.now path.now }
    ensures rest { result.1.now ≡ behind path.now names.now }
{
    let mut left = names;
    while let Some((name, rest)) = left.split_first() {
        match name.path.cmp(path) {
            Ordering::Less => left = rest,
            Ordering::Equal => return (Some(name.stamp), rest),
            Ordering::Greater => return (None, left),
        }
    }
    (None, left)
}
