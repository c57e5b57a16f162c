//! What no contract says: that calls succeed, and what they answer for small dags, for keys of three
//! types.

mod from_dag;
mod keys;
mod limits;
mod questions;
mod refusals;
mod removals;
mod setting;
mod steps;
mod support;
mod work;
