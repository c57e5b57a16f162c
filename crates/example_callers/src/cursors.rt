//! A caller that writes all weights through a cursor.
ghost use Rattle.std.specs.Prelude.{◌≡◌};
ghost use Rattle.daggy_base.specs.State.{with_graph};
ghost use Rattle.example_callers.specs.Cursors.{with_all_nodes};

use daggy_base::index::IndexType;
use daggy_dag::acyclic::Dag;

/// Writes 0 to the weight of each node.
pub fn clear_weights<E: Drop, Ix: IndexType>(dag: &mut Dag<u32, E, Ix>)
    ensures { dag.new ≡ with_graph dag.old (with_all_nodes 0 dag.old.graph) }
{
    let _compact = dag.node_count();
    let mut weights = dag.node_weights_mut();
    'each: while let Some(weight) = weights.next() {
        *weight = 0;
    }
}
