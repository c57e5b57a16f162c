//! Sets and matrices that no memory is large enough for.
use super::support::holds;
use daggy_visit::visit::{AdjMatrix, NodeSet};

#[test]
fn a_set_for_each_number_is_refused(rt: HostRuntime) {
    holds(&rt, NodeSet::<u32>::new(rt.alloc(), usize::MAX).is_err());
}

#[test]
fn a_matrix_past_each_number_is_refused(rt: HostRuntime) {
    for bound in [1usize << 32, usize::MAX] {
        holds(&rt, AdjMatrix::<u32>::new(rt.alloc(), bound).is_err());
    }
}
