//! How the program ends.

ghost use Rattle.std.specs.Prelude.{◌≡◌};
ghost use Rattle.dbgd_commands.specs.Statuses.{AreNumbersApart, code_of};

/// How a command ends.
#[derive(Clone, Copy, PartialEq, Eq)]
pub enum Status {
    /// All was done.
    Done,
    /// An object of the outside failed.
    Fault,
    /// The words can't be read.
    Usage,
    /// What was asked for isn't there.
    Absent,
    /// A file isn't as it was listed.
    Altered,
    /// A limit was met.
    Limit,
    /// Memory was refused.
    OutOfMemory,
    /// The store holds a value that is no row.
    BadRow,
}

impl Status {
    /// The program's exit status.
    #[tactic(auto, using(crate::proofs::Codes::are_apart))]
    pub fn code(self) -> u8
        ensures code { result ≡ code_of self }
        ensures apart { AreNumbersApart }
    {
        match self {
            Status::Done => 0,
            Status::Fault => 1,
            Status::Usage => 2,
            Status::Absent => 3,
            Status::Altered => 4,
            Status::Limit => 5,
            Status::OutOfMemory => 6,
            Status::BadRow => 7,
        }
    }
}
