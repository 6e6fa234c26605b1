// What stands at the front of the unread bytes: document 01, "Search" and "A request", the parts that are functions of bytes alone; `resync`,
// `next` and `Frame::is_major_sync` of process/extract.rs in the Rust. The scan for a sync word, the lengths, the candidate, the directory, the
// parity, the unit.
// Any bytes are taken: where those that a rule asks for haven't arrived, the answer is that they are missing.
#![tactic(auto)]

pub mod search; // the scan, the timestamp before a candidate, the lengths, the candidate
pub mod unit; // the directory, the parity, the unit, whether a unit is major
