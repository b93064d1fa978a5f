//! The limits of a request.

/// The most bytes in a head, including the empty line at its end.
pub const MOST_HEAD: usize = 8192;

/// The most fields in a head.
pub(crate) const MOST_FIELDS: usize = 64;

/// The most bytes in a body.
pub(crate) const MOST_BODY: u64 = 1_048_576;

/// The most digits in a `Content-Length`.
pub(crate) const MOST_DIGITS: usize = 19;

/// The largest number in a body; it has 12 digits.
pub(crate) const MOST_NUMERAL: u64 = 999_999_999_999;
