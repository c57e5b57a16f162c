//! Which dags have the same reachability.
use super::acts::dag_of;
use super::kinds::{Compact, Kind, Plain};
use super::support::{made, same};
use daggy_dag::acyclic::same_reachability;
use std::alloc::{AllocError, Global};
use std::process::Abort;

const LONG_WAY_AND_SHORT: &str = "
    nodes 3 = done
    edges 0 1 0, 1 2 1, 0 2 2 = edges 0 1 2
";

const LONG_WAY_TWICE_BEGUN: &str = "
    nodes 3 = done
    edges 0 1 0, 0 1 1, 1 2 2 = edges 0 1 2
";

const NO_WAY_FROM_THE_SECOND: &str = "
    nodes 3 = done
    edges 0 1 0, 0 1 1, 0 2 2 = edges 0 1 2
";

const ONE_NODE: &str = "nodes 1 = done";

const TWO_NODES: &str = "nodes 2 = done";

// A store whose dags are compared.
trait Compared: Kind {
    fn is_alike(a: &Plain<Self>, b: &Plain<Self>) -> Result<bool, AllocError>;
}

impl Compared for Compact {
    fn is_alike(a: &Plain<Self>, b: &Plain<Self>) -> Result<bool, AllocError> {
        same_reachability(a, b)
    }
}

fn compare<S: Compared>(rt: &impl Abort, alloc: Global, (a, b): (&str, &str), wanted: bool) {
    let a: Plain<S> = dag_of(rt, alloc, a);
    let b: Plain<S> = dag_of(rt, alloc, b);
    same(rt, made(rt, S::is_alike(&a, &b)), wanted);
    same(rt, made(rt, S::is_alike(&b, &a)), wanted);
}

fn compares(rt: &impl Abort, alloc: Global, a: &str, b: &str, wanted: bool) {
    compare::<Compact>(rt, alloc, (a, b), wanted);
}

#[test]
fn what_reaches_what_is_compared(rt: HostRuntime) {
    let alloc = rt.alloc();
    compares(&rt, alloc, LONG_WAY_AND_SHORT, LONG_WAY_TWICE_BEGUN, true);
    compares(
        &rt,
        alloc,
        LONG_WAY_AND_SHORT,
        NO_WAY_FROM_THE_SECOND,
        false,
    );
    compares(&rt, alloc, ONE_NODE, TWO_NODES, false);
    compares(&rt, alloc, "", "", true);
}
