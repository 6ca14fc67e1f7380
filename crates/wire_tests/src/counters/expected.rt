//! The pages that the tests expect.

/// The page after two requests and a pass.
pub(crate) static TWO_REQUESTS_AND_A_PASS: &str =
    "dbgd_requests_total{route=\"debuginfo\",status=\"200\"} 1
dbgd_requests_total{route=\"executable\",status=\"404\"} 1
dbgd_body_bytes_total 1026
dbgd_rows_added_total 12
dbgd_rows_replaced_total 0
dbgd_rows_dropped_total 0
dbgd_passes_total 1
";

/// The page before anything was counted.
pub(crate) static ZEROS: &str = "dbgd_body_bytes_total 0
dbgd_rows_added_total 0
dbgd_rows_replaced_total 0
dbgd_rows_dropped_total 0
dbgd_passes_total 0
";

/// A line for each route and for each status.
pub(crate) static EACH_ROUTE_AND_STATUS: &str =
    "dbgd_requests_total{route=\"debuginfo\",status=\"200\"} 1
dbgd_requests_total{route=\"debuginfo\",status=\"400\"} 2
dbgd_requests_total{route=\"executable\",status=\"404\"} 3
dbgd_requests_total{route=\"source\",status=\"405\"} 4
dbgd_requests_total{route=\"section\",status=\"431\"} 5
dbgd_requests_total{route=\"metrics\",status=\"502\"} 6
dbgd_requests_total{route=\"other\",status=\"503\"} 7
dbgd_requests_total{route=\"other\",status=\"507\"} 8
dbgd_body_bytes_total 36
dbgd_rows_added_total 3
dbgd_rows_replaced_total 4
dbgd_rows_dropped_total 5
dbgd_passes_total 1
";

/// The page after 20,000 requests of 3 bytes and 20,000 of 4.
pub(crate) static FOUR_THREADS: &str = "dbgd_requests_total{route=\"source\",status=\"200\"} 20000
dbgd_requests_total{route=\"source\",status=\"503\"} 20000
dbgd_body_bytes_total 140000
dbgd_rows_added_total 0
dbgd_rows_replaced_total 0
dbgd_rows_dropped_total 0
dbgd_passes_total 0
";
