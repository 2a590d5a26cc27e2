//! What decides how a history may go on, as numbers: equal numbers say that two histories go on alike.

// What a log says of tasks and groups.
mod digest;
// Frames, bindings and fields.
mod frames;
// Numbers as bytes.
mod key;
// The digest of a log, kept event by event.
mod log_digest;
// What is read from numbers.
pub mod laws;
// Small values.
mod values;

pub use frames::{put_bindings, put_fields, put_flags, put_frame, put_frame_as};
pub use key::pack;
pub(crate) use log_digest::LogDigest;
pub use values::{put_ending, put_flag, put_number, put_origin, put_resume};
