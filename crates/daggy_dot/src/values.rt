//! The values that closures return for the nodes and edges of a graph.
ghost use Rattle.std.specs.Prelude.{◌≡◌, ◌<◌, length, IfOk, vec_items};
ghost use Rattle.std.specs.Fmt.{DisplaysOnOk};
ghost use Rattle.daggy_dot.specs.Values.{named_at, cluster_of, cluster_at};
ghost use Rattle.daggy_dot.specs.Values.{CanCallAtEachNode, CanCallAtEachEdge};
ghost use Rattle.daggy_dot.specs.Values.{IsNodeValue, AreNodeValues, IsEdgeValue, AreEdgeValues};

use crate::escapes::{write_attribute, write_label, write_quoted};
use crate::labels::Label;
use daggy_base::index::{EdgeIndex, IndexType, NodeIndex};
use daggy_base::read_store::ReadStore;
use daggy_base::source::EdgeSource;
use std::alloc::{AllocError, Global};
use std::fmt::{self, Display, Formatter, Write};
use std::marker::Model;

// What a closure returns for the node with an index, if it exists.
fn node_value<N, E, Ix: IndexType, S, D: Drop, F>(graph: &S, x: usize, f: &F) -> Option<D>
where
    S: ReadStore<Ix, NodeWeight = N, EdgeWeight = E>,
    F: Fn(NodeIndex<Ix>, &N) -> Option<D>,
    requires bound { x < length (S.graph graph.now).nodes }
    requires call { CanCallAtEachNode Ix.of F.pre f.now (S.graph graph.now) }
    ensures { IsNodeValue Ix.of F.post f.now (S.graph graph.now) x result }
{
    graph.invariant();
    let n = NodeIndex::new(x);
    match graph.node_weight(n) {
        Some(weight) => f(n, weight),
        None => None,
    }
}

// What a closure returns for each node, by index.
pub(crate) fn node_values<N, E, Ix: IndexType, S, D: Drop, F>(
    alloc: Global,
    graph: &S,
    f: F,
) -> Result<Vec<Option<D>>, AllocError>
where
    S: ReadStore<Ix, NodeWeight = N, EdgeWeight = E>,
    F: Fn(NodeIndex<Ix>, &N) -> Option<D>,
    requires { CanCallAtEachNode Ix.of F.pre f (S.graph graph.now) }
    ensures { IfOk result (λ values. AreNodeValues Ix.of F.post f (S.graph graph.now) values.items) }
{
    let mut values = Vec::new(alloc);
    'nodes: for x in 0..graph.node_slots() {
        values.push(node_value(graph, x, &f))?;
    }
    Ok(values)
}

// What a closure returns for the edge with an index, if it exists.
fn edge_value<N, E, Ix: IndexType, S, D: Drop, F>(graph: &S, x: usize, f: &F) -> Option<D>
where
    S: ReadStore<Ix, NodeWeight = N, EdgeWeight = E>,
    F: Fn(EdgeIndex<Ix>, &E) -> Option<D>,
    requires bound { x < length (S.graph graph.now).edges }
    requires call { CanCallAtEachEdge Ix.of F.pre f.now (S.graph graph.now) }
    ensures { IsEdgeValue Ix.of F.post f.now (S.graph graph.now) x result }
{
    graph.invariant();
    let e = EdgeIndex::new(x);
    match graph.edge_weight(e) {
        Some(weight) => f(e, weight),
        None => None,
    }
}

// What a closure returns for each edge, by index.
pub(crate) fn edge_values<N, E, Ix: IndexType, S, D: Drop, F>(
    alloc: Global,
    graph: &S,
    f: F,
) -> Result<Vec<Option<D>>, AllocError>
where
    S: ReadStore<Ix, NodeWeight = N, EdgeWeight = E>,
    F: Fn(EdgeIndex<Ix>, &E) -> Option<D>,
    requires { CanCallAtEachEdge Ix.of F.pre f (S.graph graph.now) }
    ensures { IfOk result (λ values. AreEdgeValues Ix.of F.post f (S.graph graph.now) values.items) }
{
    let mut values = Vec::new(alloc);
    'edges: for x in 0..graph.edge_slots() {
        values.push(edge_value(graph, x, &f))?;
    }
    Ok(values)
}

/// An attribute of nodes or edges, as made by [`Dot::node_attribute`](crate::Dot::node_attribute) or
/// [`Dot::edge_attribute`](crate::Dot::edge_attribute).
#[derive(Drop)]
pub struct Attribute<'a, D> {
    name: &'a str,
    values: Vec<Option<D>>,
}

/// Boxes around nodes, as made by [`Dot::clusters`](crate::Dot::clusters).
#[derive(Drop)]
pub struct Clusters<D> {
    names: Vec<Option<D>>,
}

/// Two labels, written one after the other.
#[derive(Clone, Copy, Debug, Drop)]
pub struct Both<L, M> {
    /// The label that is written first.
    pub first: L,
    /// The label that is written after it.
    pub second: M,
}

impl<'a, D> Model for Attribute<'a, D> {
    ghost use Rattle.std.specs.Prelude.{vec_items};
    ghost use Rattle.daggy_dot.specs.Values.{Named};

    ghost Value = { Named D };

    ghost view = { λ attribute. record {
      name = attribute.name.now;
      values = vec_items attribute.values;
    } };
}

impl<'a, D: Drop> Attribute<'a, D> {
    pub(crate) fn new(name: &'a str, values: Vec<Option<D>>) -> Self
        ensures name { result.name ≡ name.now }
        ensures values { result.values ≡ vec_items values }
    {
        Attribute { name, values }
    }
}

impl<D: Display> Attribute<'_, D> {
    // Writes the attribute of the node or the edge with this index, if it has one.
    fn write_at<W: Write>(&self, x: usize, f: &mut Formatter<W>) -> fmt::Result
        ensures { DisplaysOnOk W.write_str_gives f.old result (named_at D.output self.now x) f.new }
    {
        match self.values.get(x) {
            Some(Some(value)) => write_attribute(self.name, value, f),
            _ => Ok(()),
        }
    }
}

impl<Ix: IndexType, T, D: Display> Label<NodeIndex<Ix>, T> for Attribute<'_, D> {
    ghost text = { λ attribute n _. named_at D.output attribute (Ix.number n) };

    fn write<W: Write>(&self, n: NodeIndex<Ix>, _weight: &T, f: &mut Formatter<W>) -> fmt::Result {
        self.write_at(n.index(), f)
    }
}

impl<Ix: IndexType, T, D: Display> Label<EdgeIndex<Ix>, T> for Attribute<'_, D> {
    ghost text = { λ attribute e _. named_at D.output attribute (Ix.number e) };

    fn write<W: Write>(&self, e: EdgeIndex<Ix>, _weight: &T, f: &mut Formatter<W>) -> fmt::Result {
        self.write_at(e.index(), f)
    }
}

impl<D> Model for Clusters<D> {
    ghost use Rattle.std.specs.Prelude.{List, Option, vec_items};

    ghost Value = { List (Option D) };

    ghost view = { λ clusters. vec_items clusters.names };
}

impl<D: Drop> Clusters<D> {
    pub(crate) fn new(names: Vec<Option<D>>) -> Self
        ensures { result ≡ vec_items names }
    {
        Clusters { names }
    }
}

// Writes a node into a box with this name.
fn write_cluster<D: Display, W: Write>(name: &D, x: usize, f: &mut Formatter<W>) -> fmt::Result
    ensures { DisplaysOnOk W.write_str_gives f.old result (cluster_of x (D.output name.now)) f.new }
{
    f.write_str("    subgraph \"cluster_")?;
    write_quoted(name, f)?;
    f.write_str("\" { ")?;
    write_label(name, f)?;
    write!(f, "{x} }}\n")
}

impl<Ix: IndexType, T, D: Display> Label<NodeIndex<Ix>, T> for Clusters<D> {
    ghost text = { λ names n _. cluster_at D.output names (Ix.number n) };

    fn write<W: Write>(&self, n: NodeIndex<Ix>, _weight: &T, f: &mut Formatter<W>) -> fmt::Result {
        let x = n.index();
        match self.names.get(x) {
            Some(Some(name)) => write_cluster(name, x, f),
            _ => Ok(()),
        }
    }
}

impl<I: Copy, T, L: Label<I, T>, M: Label<I, T>> Label<I, T> for Both<L, M> {
    ghost use Rattle.std.specs.Fmt.{◌++?◌};

    ghost text = { λ both i w. L.text both.first i w ++? M.text both.second i w };

    fn write<W: Write>(&self, index: I, weight: &T, f: &mut Formatter<W>) -> fmt::Result {
        self.first.write(index, weight, f)?;
        self.second.write(index, weight, f)
    }
}
