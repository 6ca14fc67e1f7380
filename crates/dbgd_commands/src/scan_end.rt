//! How a scan ends.

use index_state::OpenFault;
use pass_runner::PassEnd;

/// How a scan ends.
#[derive(Drop)]
pub enum ScanEnd {
    /// The store could not be opened, or no index on it.
    Refused(OpenFault),
    /// The index made its pass, which ended so.
    Passed(PassEnd),
}
