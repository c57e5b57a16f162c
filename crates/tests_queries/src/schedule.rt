//! What no contract says: that calls succeed, and what they answer for dags that were worked out by
//! hand.

mod assignments;
mod failures;
mod keys;
mod orders;
mod refusals;
mod scenes;
mod schedules;
mod support;
mod workers;
