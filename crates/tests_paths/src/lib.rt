//! Questions about graphs and dags that are only borrowed, by example.
#![tactic(auto)]

#[cfg(test)]
mod dags;
#[cfg(test)]
mod stores;
#[cfg(test)]
mod support;
