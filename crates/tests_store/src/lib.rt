//! The two stores, what they are built on, and traversals of them, by example.
#![tactic(auto)]

#[cfg(test)]
mod compact;
#[cfg(test)]
mod formats;
#[cfg(test)]
mod stable;
#[cfg(test)]
mod support;
#[cfg(test)]
mod tables;
#[cfg(test)]
mod traversal;
