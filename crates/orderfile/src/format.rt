//! The numbers of the order file format: the tags and the lengths of the fields.

ghost use Rattle.orderfile.specs.Saving.{HasFormatNumbers};

/// A field begins with its tag and two bytes for the length of its value.
pub const HEADER_LENGTH: usize = 3;

// The tags of the three kinds of field.
pub const SIZE_TAG: u8 = 1;

pub const PAIR_TAG: u8 = 2;

pub const END_TAG: u8 = 3;

// The lengths of their values: a size; two blocks and a cost; nothing.
pub const SIZE_LENGTH: u8 = 1;

pub const PAIR_LENGTH: u8 = 10;

pub const END_LENGTH: u8 = 0;

// The lengths of the whole fields.
pub const SIZE_FIELD: usize = HEADER_LENGTH + SIZE_LENGTH as usize;

pub const PAIR_FIELD: usize = HEADER_LENGTH + PAIR_LENGTH as usize;

pub const END_FIELD: usize = HEADER_LENGTH + END_LENGTH as usize;

/// The numbers above are those of the format, whatever is told with them elsewhere.
///
/// This does nothing: it is here for what it states.
pub fn format_numbers()
    ensures { HasFormatNumbers }
{}
