//! The errors of a keeper.

/// The reason why a store failed.
#[derive(Clone, Copy, Debug)]
pub enum StoreFault {
    /// A stored row cannot be decoded.
    NoRecord,
    /// The database refused or failed.
    Database,
}

/// The error of a keeper's call that reads.
#[derive(Clone, Copy, Debug)]
pub enum KeepError {
    /// Out of memory.
    Memory,
    /// The store failed.
    Store(StoreFault),
}

/// The error of a keeper's `save`.
#[derive(Clone, Copy)]
pub enum SaveError {
    /// The rows would be above the limit of the host.
    Full,
    /// Out of memory.
    Memory,
    /// The store failed.
    Store(StoreFault),
}
