//! What no contract says: that runs succeed, which errors are faults, that running out of memory is
//! reported once, and that both kinds reply alike; also what lines, arguments and endings mean, on
//! examples worked out by hand.

mod devices;
mod endings;
mod explanations;
mod random;
mod refusals;
mod runs;
mod support;
