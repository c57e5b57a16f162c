//! A graph together with the format in which it is displayed.
ghost use Rattle.std.specs.Prelude.{◌≡◌, length};
ghost use Rattle.std.specs.Fmt.{DisplaysOnOk};
ghost use Rattle.daggy_formats.specs.Document.{node_lines, edge_lines};

use crate::formats::{EdgeTable, Format, GraphMl, Mermaid, NodeTable};
use daggy_base::index::{EdgeIndex, IndexType, NodeIndex};
use daggy_base::read_store::ReadStore;
use daggy_base::source::EdgeSource;
use std::fmt::{self, Display, Formatter, Write};
use std::marker::{Model, PhantomData};

/// A graph that is displayed in a format, as made by [`mermaid`], [`graphml`], [`node_table`] or
/// [`edge_table`].
///
/// The nodes come in ascending index order, then the edges in ascending index order, each with its
/// weight as `Display` writes it. Displaying it does not allocate.
///
/// # Examples
///
/// ```
/// let mut dag: Dag<&'static str, u32> = Dag::new(rt.alloc());
/// let sow = dag.add_node("sow")?;
/// dag.add_child(sow, 90, "reap")?;
/// let chart = format!(in rt.alloc(); "{}", mermaid(dag.graph()))?;
/// assert!(rt; chart.as_str().contains("0 -->|\"90\"| 1"));
/// let edges = format!(in rt.alloc(); "{}", edge_table(dag.graph()))?;
/// assert_eq!(rt; edges.as_str(), "parent,child,weight\n0,1,\"90\"\n");
/// ```
#[derive(Drop)]
pub struct Document<'a, F, N, E, Ix: IndexType, S: ReadStore<Ix, NodeWeight = N, EdgeWeight = E>> {
    graph: &'a S,
    format: PhantomData<F>,
    node_weight: PhantomData<N>,
    edge_weight: PhantomData<E>,
    index: PhantomData<Ix>,
}

impl<'a, F, N, E, Ix: IndexType, S> Model for Document<'a, F, N, E, Ix, S>
where
    S: ReadStore<Ix, NodeWeight = N, EdgeWeight = E>,
{
    ghost use Rattle.daggy_base.specs.Graph.{Graph};

    ghost Value = { Graph N E };

    ghost view = { λ document. S.graph document.graph.now };
}

impl<'a, F, N, E, Ix: IndexType, S> Document<'a, F, N, E, Ix, S>
where
    S: ReadStore<Ix, NodeWeight = N, EdgeWeight = E>,
{
    /// Makes a document of a graph, which may have cycles.
    pub fn new(graph: &'a S) -> Self
        ensures { result ≡ S.graph graph.now }
    {
        Document {
            graph,
            format: PhantomData,
            node_weight: PhantomData,
            edge_weight: PhantomData,
            index: PhantomData,
        }
    }
}

/// A graph as a [`Mermaid`] flowchart.
///
/// # Examples
///
/// ```
/// let mut dag: Dag<&'static str, u32> = Dag::new(rt.alloc());
/// dag.add_node("sow")?;
/// let chart = format!(in rt.alloc(); "{}", mermaid(dag.graph()))?;
/// assert_eq!(rt; chart.as_str(), "flowchart TD\n    0[\"sow\"]\n");
/// ```
pub fn mermaid<N, E, Ix: IndexType, S>(graph: &S) -> Document<'_, Mermaid, N, E, Ix, S>
where
    S: ReadStore<Ix, NodeWeight = N, EdgeWeight = E>,
    ensures { result ≡ S.graph graph.now }
{
    Document::new(graph)
}

/// A graph in [`GraphMl`].
///
/// # Examples
///
/// ```
/// let mut dag: Dag<&'static str, u32> = Dag::new(rt.alloc());
/// let _ = dag.add_node("sow & reap")?;
/// let text = format!(in rt.alloc(); "{}", graphml(dag.graph()))?;
/// assert!(rt; text.as_str().contains("<data key=\"weight\">sow &amp; reap</data>"));
/// ```
pub fn graphml<N, E, Ix: IndexType, S>(graph: &S) -> Document<'_, GraphMl, N, E, Ix, S>
where
    S: ReadStore<Ix, NodeWeight = N, EdgeWeight = E>,
    ensures { result ≡ S.graph graph.now }
{
    Document::new(graph)
}

/// The nodes of a graph as a table: a [`NodeTable`].
///
/// # Examples
///
/// ```
/// let mut dag: Dag<&'static str, u32> = Dag::new(rt.alloc());
/// let _ = dag.add_node("sow")?;
/// let nodes = format!(in rt.alloc(); "{}", node_table(dag.graph()))?;
/// assert_eq!(rt; nodes.as_str(), "node,weight\n0,\"sow\"\n");
/// ```
pub fn node_table<N, E, Ix: IndexType, S>(graph: &S) -> Document<'_, NodeTable, N, E, Ix, S>
where
    S: ReadStore<Ix, NodeWeight = N, EdgeWeight = E>,
    ensures { result ≡ S.graph graph.now }
{
    Document::new(graph)
}

/// The edges of a graph as a table: an [`EdgeTable`].
///
/// # Examples
///
/// ```
/// let mut dag: Dag<&'static str, u32> = Dag::new(rt.alloc());
/// let sow = dag.add_node("sow")?;
/// dag.add_child(sow, 90, "reap")?;
/// let edges = format!(in rt.alloc(); "{}", edge_table(dag.graph()))?;
/// assert_eq!(rt; edges.as_str(), "parent,child,weight\n0,1,\"90\"\n");
/// ```
pub fn edge_table<N, E, Ix: IndexType, S>(graph: &S) -> Document<'_, EdgeTable, N, E, Ix, S>
where
    S: ReadStore<Ix, NodeWeight = N, EdgeWeight = E>,
    ensures { result ≡ S.graph graph.now }
{
    Document::new(graph)
}

impl<F: Format, N: Display, E: Display, Ix: IndexType, S> Document<'_, F, N, E, Ix, S>
where
    S: ReadStore<Ix, NodeWeight = N, EdgeWeight = E>,
{
    fn write_nodes<W: Write>(&self, f: &mut Formatter<W>) -> fmt::Result
        ensures { DisplaysOnOk W.write_str_gives f.old result
            (node_lines N.output F.node_line self.now) f.new }
    {
        self.graph.invariant();
        'nodes: for x in 0..self.graph.node_slots() {
            if let Some(weight) = self.graph.node_weight(NodeIndex::new(x)) {
                F::write_node(x, weight, f)?;
            }
        }
        Ok(())
    }

    fn write_edges<W: Write>(&self, f: &mut Formatter<W>) -> fmt::Result
        ensures { DisplaysOnOk W.write_str_gives f.old result
            (edge_lines E.output F.edge_line self.now) f.new }
    {
        self.graph.invariant();
        'edges: for x in 0..self.graph.edge_slots() {
            let e = EdgeIndex::new(x);
            if let Some(ends) = self.graph.edge_endpoints(e) {
                if let Some(weight) = self.graph.edge_weight(e) {
                    F::write_edge(ends.0.index(), ends.1.index(), weight, f)?;
                }
            }
        }
        Ok(())
    }
}

impl<F: Format, N: Display, E: Display, Ix: IndexType, S> Display for Document<'_, F, N, E, Ix, S>
where
    S: ReadStore<Ix, NodeWeight = N, EdgeWeight = E>,
{
    ghost use Rattle.daggy_formats.specs.Document.{document};

    ghost output = { document N.output E.output F.header F.node_line F.edge_line F.footer };

    fn fmt<W: Write>(&self, f: &mut Formatter<W>) -> fmt::Result {
        F::write_header(f)?;
        self.write_nodes(f)?;
        self.write_edges(f)?;
        F::write_footer(f)
    }
}
