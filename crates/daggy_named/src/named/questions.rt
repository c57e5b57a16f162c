//! Queries about dependencies, by keys.
ghost use Rattle.std.specs.Prelude.{◌≡◌, ◌↔◌, [], ◌∷◌, IsTrue, Ok, Some, None, map, IfOk, IfSome};
ghost use Rattle.std.specs.Prelude.{IfNone};
ghost use Rattle.std.specs.List.{All};
ghost use Rattle.daggy_base.specs.Graph.{HasNode};
ghost use Rattle.daggy_base.specs.Path.{Reaches};
ghost use Rattle.daggy_order.specs.Paths.{IsShortestPath};
ghost use Rattle.daggy_reduction.specs.Descendants.{IsDescendantOf, IsOrderOfPart};
ghost use Rattle.daggy_named.specs.Naming.{key_at, index_by, ForNodes};
ghost use Rattle.daggy_named.specs.Asked.{ForNode, AreKeysOf};

use crate::named::Named;
use daggy_base::index::{IndexType, NodeIndex};
use indexmap::Equivalent;
use std::alloc::AllocError;
use std::hash::Hash;

impl<K: Eq + Hash + Drop, N: Drop, E: Drop, Ix: IndexType> Named<K, N, E, Ix> {
    // The keys of some nodes, in the same order.
    pub(crate) fn keys_of(&self, nodes: &[NodeIndex<Ix>]) -> Result<Vec<&K>, AllocError>
        requires { All (λ n. HasNode self.now.graph (Ix.number n)) nodes.now }
        ensures { IfOk result (λ found. map (key_at self.now.keys) (map Ix.number nodes.now)
            ≡ map Some (map (λ k. k.now) found.items)) }
    {
        // Called only for its contract: each node has a key.
        let _count = self.node_count();
        let mut keys = Vec::with_capacity(self.dag.allocator(), nodes.len())?;
        'nodes: for i in 0..nodes.len() {
            keys.push(self.key_of(nodes[i]).unwrap())?;
        }
        Ok(keys)
    }

    // A list of one node. An array of one would have to fit into memory, whatever its index type.
    fn one(&self, n: NodeIndex<Ix>) -> Result<Vec<NodeIndex<Ix>>, AllocError>
        ensures { IfOk result (λ nodes. map Ix.number nodes.items ≡ Ix.number n ∷ []) }
    {
        let mut nodes = Vec::new(self.dag.allocator());
        nodes.push(n)?;
        Ok(nodes)
    }

    /// Whether a path leads from the node with the key `a` to the node with the key `b`, that is,
    /// whether `b` is `a` or depends on it. `false` if there is no such node.
    ///
    /// # Errors
    ///
    /// Returns `AllocError` if an allocation fails.
    ///
    /// # Complexity
    ///
    /// O(nodes), plus a search. For many queries, use [`paths`](daggy_dag::acyclic::Acyclic::paths)
    /// of [`dag`](Named::dag).
    ///
    /// # Examples
    ///
    /// ```
    /// let mut plan: Named<&'static str, u32, ()> = Named::new(rt.alloc());
    /// plan.add_node("sow", 1)?;
    /// plan.add_node("reap", 2)?;
    /// plan.add_dependency(Dependency { dependent: "reap", on: "sow" }, ())?;
    /// assert!(rt; plan.reaches("sow", "reap")?);
    /// assert!(rt; !plan.reaches("reap", "sow")?);
    /// ```
    pub fn reaches<Q: Equivalent<K>>(&self, a: Q, b: Q) -> Result<bool, AllocError>
        ensures { IfOk result (λ r. IsTrue r ↔ ForNodes (Q.equivalent a) (Q.equivalent b)
            self.now.keys (λ u v. Reaches self.now.graph u v)) }
    {
        let Some(from) = self.index_of(a) else {
            return Ok(false);
        };
        let Some(to) = self.index_of(b) else {
            return Ok(false);
        };
        let mut paths = self.dag.paths()?;
        Ok(paths.reaches(from, to))
    }

    /// The keys along a shortest path from the node with the key `a` to the node with the key `b`,
    /// or `None` if there is no such path, or no such node.
    ///
    /// # Errors
    ///
    /// Returns `AllocError` if an allocation fails.
    ///
    /// # Complexity
    ///
    /// O(nodes), plus a search.
    ///
    /// # Examples
    ///
    /// ```
    /// let mut plan: Named<&'static str, u32, ()> = Named::new(rt.alloc());
    /// plan.add_node("sow", 1)?;
    /// plan.add_node("reap", 2)?;
    /// plan.add_dependency(Dependency { dependent: "reap", on: "sow" }, ())?;
    /// let path = plan.path("sow", "reap")?;
    /// assert!(rt; path.is_some_and(|keys| keys.as_slice() == [&"sow", &"reap"].as_slice()));
    /// assert!(rt; plan.path("reap", "sow")?.is_none());
    /// ```
    pub fn path<Q: Equivalent<K>>(&self, a: Q, b: Q) -> Result<Option<Vec<&K>>, AllocError>
        ensures path { IfOk result (λ found. IfSome found (λ keys.
            ForNodes (Q.equivalent a) (Q.equivalent b) self.now.keys (λ u v.
            AreKeysOf self.now.keys (IsShortestPath self.now.graph u v)
            (map (λ k. k.now) keys.items)))) }
        ensures none { IfOk result (λ found. IfNone found (¬ ForNodes (Q.equivalent a) (Q.equivalent b)
            self.now.keys (λ u v. Reaches self.now.graph u v))) }
    {
        let Some(from) = self.index_of(a) else {
            return Ok(None);
        };
        let Some(to) = self.index_of(b) else {
            return Ok(None);
        };
        let mut paths = self.dag.paths()?;
        let Some(nodes) = paths.path(from, to)? else {
            return Ok(None);
        };
        Ok(Some(self.keys_of(nodes.as_slice())?))
    }

    /// The keys of all nodes that depend on the node with this key, directly or through others,
    /// each once and after the nodes that it depends on. `None` if there is no such node.
    ///
    /// # Errors
    ///
    /// Returns `AllocError` if an allocation fails.
    ///
    /// # Complexity
    ///
    /// O(nodes), plus O(k log k + m) for k nodes found and m edges that leave them.
    ///
    /// # Examples
    ///
    /// ```
    /// let mut plan: Named<&'static str, u32, ()> = Named::new(rt.alloc());
    /// plan.add_node("sow", 1)?;
    /// plan.add_node("hoe", 2)?;
    /// plan.add_node("reap", 3)?;
    /// plan.add_dependency(Dependency { dependent: "hoe", on: "sow" }, ())?;
    /// plan.add_dependency(Dependency { dependent: "reap", on: "hoe" }, ())?;
    /// let later = plan.descendants_of("sow")?;
    /// assert!(rt; later.is_some_and(|keys| keys.as_slice() == [&"hoe", &"reap"].as_slice()));
    /// let first = plan.ancestors_of("reap")?;
    /// assert!(rt; first.is_some_and(|keys| keys.as_slice() == [&"sow", &"hoe"].as_slice()));
    /// assert!(rt; plan.ancestors_of("mow")?.is_none());
    /// ```
    pub fn descendants_of<Q: Equivalent<K>>(&self, key: Q) -> Result<Option<Vec<&K>>, AllocError>
        ensures found { IfOk result (λ found. IfSome found (λ keys.
            ForNode (Q.equivalent key) self.now.keys (λ n. AreKeysOf self.now.keys
            (IsOrderOfPart self.now.graph (λ m. IsDescendantOf self.now.graph n m))
            (map (λ k. k.now) keys.items)))) }
        ensures none { (result ≡ Ok None) ↔ (index_by (Q.equivalent key) self.now.keys ≡ None) }
    {
        let Some(n) = self.index_of(key) else {
            return Ok(None);
        };
        let given = self.one(n)?;
        let mut paths = self.dag.paths()?;
        let nodes = paths.descendants(given.as_slice())?;
        Ok(Some(self.keys_of(nodes.as_slice())?))
    }

    /// The keys of all nodes that the node with this key depends on, directly or through others,
    /// each once and after the nodes that it depends on. `None` if there is no such node.
    ///
    /// # Errors
    ///
    /// Returns `AllocError` if an allocation fails.
    ///
    /// # Complexity
    ///
    /// O(nodes), plus O(k log k + m) for k nodes found and m edges that enter them.
    pub fn ancestors_of<Q: Equivalent<K>>(&self, key: Q) -> Result<Option<Vec<&K>>, AllocError>
        ensures found { IfOk result (λ found. IfSome found (λ keys.
            ForNode (Q.equivalent key) self.now.keys (λ n. AreKeysOf self.now.keys
            (IsOrderOfPart self.now.graph (λ m. IsDescendantOf self.now.graph m n))
            (map (λ k. k.now) keys.items)))) }
        ensures none { (result ≡ Ok None) ↔ (index_by (Q.equivalent key) self.now.keys ≡ None) }
    {
        let Some(n) = self.index_of(key) else {
            return Ok(None);
        };
        // Called only for its contract: the graph is well formed.
        let _count = self.node_count();
        let given = self.one(n)?;
        let mut paths = self.dag.paths()?;
        let nodes = paths.ancestors(given.as_slice())?;
        Ok(Some(self.keys_of(nodes.as_slice())?))
    }
}
