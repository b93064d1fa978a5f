//! The limits of a pledge's record.

/// The highest number of a book or a pledge.
pub(crate) const MOST_NUMBER: u64 = 999_999_999;

/// The most bytes that a broker's reference may have.
pub const MOST_REFERENCE_BYTES: usize = 40;

/// The most bytes that the text of an article may have.
pub const MOST_ARTICLE_BYTES: usize = 80;

/// The largest credit that is small, in pence: 75 pounds.
pub(crate) const SMALL_CREDIT: u64 = 7_500;

/// The number of days of grace, in which a pledge with the five days may still be redeemed after its end and not sold.
pub(crate) const GRACE_DAYS: u32 = 5;

/// The most secrets that a pledge may have: the first one, and 100 that are issued on declarations.
pub const MOST_SECRETS: usize = 101;

/// The most extensions that a pledge may have.
pub const MOST_EXTENSIONS: usize = 99;

/// The last window of a day. Windows are numbered from 0.
pub const LAST_WINDOW: u64 = 15;
