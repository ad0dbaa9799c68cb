//! Limits of what trees and acts hold.

/// The most bytes that a file, a variable or the value of a word has.
pub const CONTENTS_LIMIT: usize = 65_536;

/// The most acts of a transaction.
pub const ACT_LIMIT: u64 = 4_096;

/// The most wishes of a profile.
pub const WISH_LIMIT: usize = 256;

/// The greatest priority of a wish; the least is 1.
pub const PRIORITY_LIMIT: u64 = 1_000;

/// The greatest limit within which paths are taken along; the least is 1.
pub const WALK_LIMIT: u64 = 1_000_000;
