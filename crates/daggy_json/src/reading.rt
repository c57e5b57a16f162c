//! Reading a value.
mod entries;
pub mod gathering;
mod layout;
mod orders;
mod parts;
mod rearranged;
mod rows;
mod weights;
