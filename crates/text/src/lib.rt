// Tables in text by RFC 4180: the reader of fields and records, numbers, and the header's line.
#![tactic(auto)]

pub mod field;
pub mod header;
pub mod number;
pub mod reader;
mod record;
mod scan;
pub mod walk;
