// The records of a sheet. Each reader is given the remainder of the sheet, from its record's mark on, and what it needs of what
// is read so far; it answers what the record says, or the first reason to refuse it.
#![tactic(auto)]

pub mod marks;
pub mod readers;
