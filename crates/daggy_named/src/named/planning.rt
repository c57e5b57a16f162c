//! Plans in stages, by keys.
ghost use Rattle.std.specs.Prelude.{◌≡◌, Some, map, IfOk};
ghost use Rattle.std.specs.List.{All};
ghost use Rattle.daggy_base.specs.Graph.{HasNode};
ghost use Rattle.daggy_run.specs.Plans.{stages_of};
ghost use Rattle.daggy_named.specs.Naming.{key_at};
ghost use Rattle.daggy_named.specs.Planned.{keys_in, keys_by_stage, IsPlanByKey};

use crate::named::Named;
use daggy_base::index::{IndexType, NodeIndex};
use daggy_run::plan;
use std::alloc::AllocError;
use std::hash::Hash;

/// Stages of work, by keys: what is in a stage depends only on what is in earlier ones.
///
/// # Examples
///
/// ```
/// let mut plan: Named<&'static str, u32, ()> = Named::new(rt.alloc());
/// plan.add_node("sow", 1)?;
/// let stages = plan.plan()?.stages;
/// assert!(rt; stages.len() == 1);
/// ```
#[derive(Debug, Drop)]
pub struct PlanByKey<'a, K> {
    /// The keys of each stage, in ascending order of the nodes' indices. Each node is in the first
    /// stage after those that it depends on, and no stage is empty.
    pub stages: Vec<Vec<&'a K>>,
    /// The keys along a path with a node in each stage, so no plan has fewer stages. It ends with
    /// the lowest-index node of the last stage, and each node is preceded by its lowest-index
    /// dependency in the previous stage.
    pub chain: Vec<&'a K>,
}

impl<K: Eq + Hash + Drop, N: Drop, E: Drop, Ix: IndexType> Named<K, N, E, Ix> {
    // The keys of the nodes of each stage, in the same order.
    fn keys_of_stages(&self, stages: &[Vec<NodeIndex<Ix>>]) -> Result<Vec<Vec<&K>>, AllocError>
        requires { All (All (HasNode self.now.graph)) (stages_of Ix.number stages.now) }
        ensures { IfOk result (λ found.
            map (map (key_at self.now.keys)) (stages_of Ix.number stages.now)
            ≡ map (map Some) (keys_by_stage found.items)) }
    {
        let mut found = Vec::with_capacity(self.dag.allocator(), stages.len())?;
        'stages: for i in 0..stages.len() {
            found.push(self.keys_of(stages[i].as_slice())?)?;
        }
        Ok(found)
    }

    /// Plans the nodes in the fewest possible stages, each after the nodes that it depends on, and
    /// returns their keys. The same as [`plan`](daggy_run::plan::plan) of the
    /// [`dag`](Named::dag), by keys.
    ///
    /// # Errors
    ///
    /// Returns `AllocError` if an allocation fails.
    ///
    /// # Complexity
    ///
    /// O(node slots + edges).
    ///
    /// # Examples
    ///
    /// ```
    /// let mut work: Named<&'static str, u32, ()> = Named::new(rt.alloc());
    /// work.add_node("reap", 2)?;
    /// work.add_node("sow", 1)?;
    /// work.add_node("mend the fence", 1)?;
    /// work.add_dependency(Dependency { dependent: "reap", on: "sow" }, ())?;
    /// let plan = work.plan()?;
    /// assert!(rt; plan.stages.len() == 2);
    /// let first = plan.stages.get(0);
    /// assert!(rt; first.is_some_and(|keys| keys.as_slice() == [&"sow", &"mend the fence"].as_slice()));
    /// // No plan can have fewer stages than this path has nodes.
    /// assert!(rt; plan.chain.as_slice() == [&"sow", &"reap"].as_slice());
    /// ```
    pub fn plan(&self) -> Result<PlanByKey<'_, K>, AllocError>
        ensures { IfOk result (λ p. IsPlanByKey self.now.graph self.now.keys
            (keys_by_stage p.stages.items) (keys_in p.chain.items)) }
    {
        let found = plan::plan(self.dag.allocator(), &self.dag)?;
        let stages = self.keys_of_stages(found.stages.as_slice())?;
        let chain = self.keys_of(found.chain.as_slice())?;
        Ok(PlanByKey { stages, chain })
    }
}
