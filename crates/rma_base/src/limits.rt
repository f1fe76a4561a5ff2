//! The limits of one audit. `specs/Limits.antt` states the same numbers, and `laws::limits_are_as_stated` that they agree.

/// The most logs of one run.
pub const RANKS: usize = 1024;

/// The most bytes that are taken over all logs of one run.
pub const BYTES: u64 = 268_435_456;

/// The most bytes of one line before its line feed.
pub const LINE: usize = 1_048_576;

/// The most bytes of a name.
pub const NAME: usize = 64;

/// The most bytes of a site, the `@` not counted.
pub const SITE: usize = 256;

/// The most entries of one datatype, and touched entries of one access.
pub const ELEMENTS: u64 = 67_108_864;

/// The most blocks of one access.
pub const BLOCKS: u64 = 65_536;

/// Addresses are 0 to this one; a byte lies below it.
pub const SPACE: u64 = 281_474_976_710_656;

/// The most dimensions of a subarray.
pub const DIMS: usize = 8;

/// The most bytes fed to one cutter, and the most calls of all ranks of one run together.
pub const FED: u64 = 536_870_912;
