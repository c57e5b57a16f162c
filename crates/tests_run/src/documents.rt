//! Dags as documents.

mod faults;
mod random;
mod reading;
mod scenes;
mod short;
mod streaming;
mod support;
mod texts;
mod writing;
