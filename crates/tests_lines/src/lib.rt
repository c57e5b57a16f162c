//! Tests of the line program: whole runs over devices in memory, and over readers and writers
//! that fail.
#![tactic(auto)]

#[cfg(test)]
mod tests;
