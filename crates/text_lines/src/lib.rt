//! Reads and writes the parts of texts: lines of bytes, their fields, and the numbers in them.
//!
//! Contracts see how the bytes of a source end, and the outcome of each call on a sink. A line has at most 80 bytes
//! before its line feed. Single spaces separate its fields. A number is the digit 0, or digits that begin with
//! another one. This crate also defines the faults that one line can have.
#![tactic(auto)]

mod buffered;
mod eight;
mod fault;
mod field;
mod forms;
mod in_place;
mod line;
mod memory;
mod scan;
mod sink;
mod source;
mod write_buffer;

pub use buffered::Buffered;
pub use eight::number_at;
pub use fault::TextFault;
pub use field::{end_in, number_in, split_field};
pub use forms::{Field, NumberFields, parse_line};
pub use in_place::InPlace;
pub use line::{LONGEST_LINE, Line};
pub use memory::MemorySource;
pub use scan::after_word_at;
pub use sink::{TextSink, WriteFault, write_piece};
pub use source::{ReadFailed, TextSource, Watched};
pub use write_buffer::{WriteBuffer, make_room};
