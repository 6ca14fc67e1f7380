//! What a cursor's bytes lack.

/// Why a value could not be read. Short is tested before Wide.
#[derive(Clone, Copy, Debug, PartialEq, Eq)]
pub enum Fault {
    /// The bytes end before the value does.
    Short {
        /// Where the value begins, in bytes from the cursor's first byte.
        at: usize,
    },
    /// The number's last byte is there, and its type has no such value.
    Wide {
        /// Where the number begins, in bytes from the cursor's first byte.
        at: usize,
    },
}
