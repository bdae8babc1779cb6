use crate::in_place::InPlace;

/// The maximum number of bytes of a line, without its line feed.
pub const LONGEST_LINE: usize = 80;

/// The bytes of a line so far, seen as a list.
pub type Line = InPlace<LONGEST_LINE>;
