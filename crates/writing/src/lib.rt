// The bytes of a score's file, in the caller's buffer.
#![tactic(auto)]

mod bytes;
pub mod file;
mod term;
