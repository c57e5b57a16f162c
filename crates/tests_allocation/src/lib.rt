//! Calls while memory is refused once. `.ci/checks/refused_allocations.sh` runs the tests with no
//! allocation refused, and then with each in turn. In each test exactly one call answers that there
//! was no memory if an allocation of the test was refused, and none does otherwise. Only the sort of
//! a long series and a reduction by blocks can do without, and need not answer.
//!
//! It also counts the allocations, for the calls that make none (`quiet`).
#![tactic(auto)]

#[cfg(test)]
mod again;
#[cfg(test)]
mod document_tests;
#[cfg(test)]
mod faults;
#[cfg(test)]
mod observed;
#[cfg(test)]
mod queries;
#[cfg(test)]
mod quiet;
#[cfg(test)]
mod run_tests;
#[cfg(test)]
mod scenarios;
#[cfg(test)]
mod searches;
#[cfg(test)]
mod slots;
#[cfg(test)]
mod stable_tests;
#[cfg(test)]
mod stores;
#[cfg(test)]
mod support;
#[cfg(test)]
mod tests;
