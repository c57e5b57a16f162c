//! What is asked of dags, by example: walkers, traversals, ready queues and schedules, names,
//! closures and simple paths, the order of children, dags that are merged, and pictures.
#![tactic(auto)]

#[cfg(test)]
mod children;
#[cfg(test)]
mod merging;
#[cfg(test)]
mod named;
#[cfg(test)]
mod operators;
#[cfg(test)]
mod pictures;
#[cfg(test)]
mod schedule;
#[cfg(test)]
mod support;
#[cfg(test)]
mod traversal;
#[cfg(test)]
mod walks;
