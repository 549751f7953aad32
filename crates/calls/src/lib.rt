// The calls on the lent chip and tables: document 01's three, and document 02's release and start; format, write and start also with a budget. Each stands in a crate of its own.
#![tactic(auto)]

pub use call_format::{format, format_cut};
pub use call_read::read;
pub use call_release::release;
pub use call_start::{start, start_cut};
pub use call_write::{write, write_cut};
