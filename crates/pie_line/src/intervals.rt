//! Lists of intervals.
use bit_strings::Bounded;

/// A list of intervals, in nanoseconds. Its capacity, in intervals, is fixed when it is made, and no later call
/// takes memory.
///
/// A contract sees it as a record of the list `items` and the number `capacity`.
pub type Intervals = Bounded<u32>;
