//! Graphs in graphviz's language DOT.
ghost use Rattle.std.specs.Prelude.{◌≡◌, true, length, map, vec_items, IfOk, Some};
ghost use Rattle.std.specs.Fmt.{DisplaysOnOk, WritesOnOk, ◌++?◌};
ghost use Rattle.std.specs.List.{flat_map};
ghost use Rattle.daggy_dot.specs.Picture.{IsPlain, with_node_labels, with_edge_labels};
ghost use Rattle.daggy_dot.specs.Picture.{with_clusters, AreMarksOf, is_bold, is_bold_edge};
ghost use Rattle.daggy_dot.specs.declared.direction.RankDir.TheVariants.{LeftToRight};
ghost use Rattle.daggy_dot.specs.Values.{CanCallAtEachNode, CanCallAtEachEdge};
ghost use Rattle.daggy_dot.specs.Values.{AreNodeValues, AreEdgeValues};
ghost use Rattle.daggy_formats.specs.Lines.{lines_of};
ghost use Rattle.daggy_dot.specs.Picture.{line_of_node, line_of_edge, rank_line, header};
ghost use Rattle.daggy_dot.specs.Picture.{node_line, edge_line};

use crate::direction::RankDir;
use crate::labels::{Label, NoLabels, WeightLabels};
use crate::marks::Marks;
use crate::values::{Attribute, Both, Clusters, edge_values, node_values};
use crate::writing::{write_direction, write_edge, write_node, write_rank_rule, write_title};
use daggy_base::index::{EdgeIndex, IndexType, NodeIndex};
use daggy_base::read_store::ReadStore;
use daggy_base::source::EdgeSource;
use daggy_dag::acyclic::Acyclic;
use std::alloc::{AllocError, Global};
use std::fmt::{self, Display, Formatter, Write};
use std::marker::{Model, PhantomData};

/// A graph that `Display` writes in graphviz's language DOT, for example:
///
///     digraph {
///         0 [ label = "sow" ]
///         1 [ label = "reap" ]
///         0 -> 1 [ label = "90" ]
///     }
///
/// The nodes come in ascending index order, then the edges in ascending index order, each with its
/// label. Displaying it does not allocate.
///
/// # Examples
///
/// ```
/// let mut dag: Dag<&'static str, u32> = Dag::new(rt.alloc());
/// let sow = dag.add_node("sow")?;
/// let (_, reap) = dag.add_child(sow, 90, "reap")?;
/// let dot = Dot::new(&dag).title("A garden").bold(rt.alloc(), &[sow, reap])?;
/// let picture = format!(in rt.alloc(); "{dot}")?;
/// let line = "0 -> 1 [ label = \"90\" style = bold ]";
/// assert!(rt; picture.as_str().contains(line));
/// ```
#[derive(Drop)]
pub struct Dot<
    'a,
    N,
    E,
    Ix: IndexType,
    S: ReadStore<Ix, NodeWeight = N, EdgeWeight = E>,
    L = WeightLabels,
    M = WeightLabels,
    K = NoLabels,
> {
    graph: &'a S,
    title: Option<&'a str>,
    node_labels: L,
    edge_labels: M,
    clusters: K,
    has_clusters: bool,
    direction: RankDir,
    stages: &'a [Vec<NodeIndex<Ix>>],
    marks: Option<Marks>,
    node_weight: PhantomData<N>,
    edge_weight: PhantomData<E>,
}

impl<'a, N, E, Ix: IndexType, S, L, M, K> Model for Dot<'a, N, E, Ix, S, L, M, K>
where
    S: ReadStore<Ix, NodeWeight = N, EdgeWeight = E>,
{
    ghost use Rattle.std.specs.Prelude.{map, vec_items};
    ghost use Rattle.std.specs.Option.{option_map};
    ghost use Rattle.daggy_dot.specs.Picture.{Drawing};

    ghost Value = { Drawing N E L M K Ix };

    ghost view = { λ dot. record {
      graph = S.graph dot.graph.now;
      title = option_map (λ t. t.now) dot.title;
      node_labels = dot.node_labels;
      edge_labels = dot.edge_labels;
      clusters = dot.clusters;
      has_clusters = dot.has_clusters;
      direction = dot.direction;
      stages = map vec_items dot.stages.now;
      marks = dot.marks;
    } };
}

impl<'a, N: Drop, E: Drop, Ix: IndexType, S> Dot<'a, N, E, Ix, S>
where
    S: ReadStore<Ix, NodeWeight = N, EdgeWeight = E>,
{
    /// A picture of a dag, with the weights as labels.
    pub fn new(dag: &'a Acyclic<N, E, Ix, S>) -> Self
        ensures { IsPlain result dag.now.graph }
    {
        Dot::of_graph(dag.graph())
    }

    /// A picture of a graph, which may have cycles, with the weights as labels.
    ///
    /// # Examples
    ///
    /// ```
    /// let mut graph: DiGraph<&'static str, u32, u32> = DiGraph::new(rt.alloc());
    /// let sow = graph.add_node("sow")?;
    /// let _ = graph.add_edge(sow, sow, 365)?;
    /// let picture = format!(in rt.alloc(); "{}", Dot::of_graph(&graph))?;
    /// assert!(rt; picture.as_str().contains("0 -> 0 [ label = \"365\" ]"));
    /// ```
    pub fn of_graph(graph: &'a S) -> Self
        ensures { IsPlain result (S.graph graph.now) }
    {
        Dot {
            graph,
            title: None,
            node_labels: WeightLabels,
            edge_labels: WeightLabels,
            clusters: NoLabels,
            has_clusters: false,
            direction: RankDir::TopToBottom,
            stages: &[],
            marks: None,
            node_weight: PhantomData,
            edge_weight: PhantomData,
        }
    }
}

impl<'a, N: Drop, E: Drop, Ix: IndexType, S, L: Drop, M: Drop, K: Drop> Dot<
    'a,
    N,
    E,
    Ix,
    S,
    L,
    M,
    K,
>
where
    S: ReadStore<Ix, NodeWeight = N, EdgeWeight = E>,
{
    /// Sets the labels of the nodes.
    pub fn node_labels<L2>(self, labels: L2) -> Dot<'a, N, E, Ix, S, L2, M, K>
        ensures { result ≡ with_node_labels self.entry labels }
    {
        Dot {
            graph: self.graph,
            title: self.title,
            node_labels: labels,
            edge_labels: self.edge_labels,
            clusters: self.clusters,
            has_clusters: self.has_clusters,
            direction: self.direction,
            stages: self.stages,
            marks: self.marks,
            node_weight: PhantomData,
            edge_weight: PhantomData,
        }
    }

    /// Sets the labels of the edges.
    pub fn edge_labels<M2>(self, labels: M2) -> Dot<'a, N, E, Ix, S, L, M2, K>
        ensures { result ≡ with_edge_labels self.entry labels }
    {
        Dot {
            graph: self.graph,
            title: self.title,
            node_labels: self.node_labels,
            edge_labels: labels,
            clusters: self.clusters,
            has_clusters: self.has_clusters,
            direction: self.direction,
            stages: self.stages,
            marks: self.marks,
            node_weight: PhantomData,
            edge_weight: PhantomData,
        }
    }

    /// Leaves out the labels of the edges.
    ///
    /// # Examples
    ///
    /// ```
    /// let mut dag: Dag<&'static str, u32> = Dag::new(rt.alloc());
    /// let sow = dag.add_node("sow")?;
    /// let _ = dag.add_child(sow, 90, "reap")?;
    /// // The same as `edge_labels(NoLabels)`.
    /// let dot = Dot::new(&dag).no_edge_labels();
    /// let picture = format!(in rt.alloc(); "{dot}")?;
    /// assert!(rt; picture.as_str().contains("0 -> 1 [ ]"));
    /// ```
    pub fn no_edge_labels(self) -> Dot<'a, N, E, Ix, S, L, NoLabels, K>
        ensures { result ≡ with_edge_labels self.entry result.edge_labels }
    {
        self.edge_labels(NoLabels)
    }

    /// Adds an attribute, such as `color`, to each node for which the closure returns a value. It
    /// comes after the label. To replace the label, add `label` after `node_labels(NoLabels)`.
    ///
    /// # Requires
    ///
    /// - `value` may be called with each node and its weight.
    ///
    /// # Errors
    ///
    /// Returns `AllocError` if an allocation fails.
    ///
    /// # Complexity
    ///
    /// O(nodes), plus the calls.
    ///
    /// # Examples
    ///
    /// ```
    /// let mut dag: Dag<u32, ()> = Dag::new(rt.alloc());
    /// let sow = dag.add_node(2)?;
    /// let _ = dag.add_child(sow, (), 60)?;
    /// let dot = Dot::new(&dag).no_edge_labels();
    /// let color = |_, days: &u32| if *days > 30 { Some("red") } else { None };
    /// let dot = dot.node_attribute(rt.alloc(), "color", color)?;
    /// let picture = format!(in rt.alloc(); "{dot}")?;
    /// assert!(rt; picture.as_str().contains("1 [ label = \"60\" color = \"red\" ]"));
    /// ```
    pub fn node_attribute<D: Drop, F: Fn(NodeIndex<Ix>, &N) -> Option<D>>(
        self,
        alloc: Global,
        name: &'a str,
        value: F,
    ) -> Result<Dot<'a, N, E, Ix, S, Both<L, Attribute<'a, D>>, M, K>, AllocError>
        requires { CanCallAtEachNode Ix.of F.pre value self.graph }
        ensures rest { IfOk result (λ dot. dot ≡ with_node_labels self.entry dot.node_labels) }
        ensures before { IfOk result (λ dot. dot.node_labels.first ≡ self.entry.node_labels) }
        ensures name { IfOk result (λ dot. dot.node_labels.second.name ≡ name.now) }
        ensures values { IfOk result (λ dot. AreNodeValues Ix.of F.post value self.entry.graph
            dot.node_labels.second.values) }
    {
        let values = node_values(alloc, self.graph, value)?;
        Ok(Dot {
            graph: self.graph,
            title: self.title,
            node_labels: Both {
                first: self.node_labels,
                second: Attribute::new(name, values),
            },
            edge_labels: self.edge_labels,
            clusters: self.clusters,
            has_clusters: self.has_clusters,
            direction: self.direction,
            stages: self.stages,
            marks: self.marks,
            node_weight: PhantomData,
            edge_weight: PhantomData,
        })
    }

    /// Adds an attribute, such as `color`, to each edge for which the closure returns a value. It
    /// comes after the label.
    ///
    /// # Requires
    ///
    /// - `value` may be called with each edge and its weight.
    ///
    /// # Errors
    ///
    /// Returns `AllocError` if an allocation fails.
    ///
    /// # Complexity
    ///
    /// O(edges), plus the calls.
    ///
    /// # Examples
    ///
    /// ```
    /// let mut dag: Dag<&'static str, u32> = Dag::new(rt.alloc());
    /// let sow = dag.add_node("sow")?;
    /// dag.add_child(sow, 90, "reap")?;
    /// let style = |_, days: &u32| if *days > 30 { Some("dashed") } else { None };
    /// let dot = Dot::new(&dag).edge_attribute(rt.alloc(), "style", style)?;
    /// let picture = format!(in rt.alloc(); "{dot}")?;
    /// let line = "0 -> 1 [ label = \"90\" style = \"dashed\" ]";
    /// assert!(rt; picture.as_str().contains(line));
    /// ```
    pub fn edge_attribute<D: Drop, F: Fn(EdgeIndex<Ix>, &E) -> Option<D>>(
        self,
        alloc: Global,
        name: &'a str,
        value: F,
    ) -> Result<Dot<'a, N, E, Ix, S, L, Both<M, Attribute<'a, D>>, K>, AllocError>
        requires { CanCallAtEachEdge Ix.of F.pre value self.graph }
        ensures rest { IfOk result (λ dot. dot ≡ with_edge_labels self.entry dot.edge_labels) }
        ensures before { IfOk result (λ dot. dot.edge_labels.first ≡ self.entry.edge_labels) }
        ensures name { IfOk result (λ dot. dot.edge_labels.second.name ≡ name.now) }
        ensures values { IfOk result (λ dot. AreEdgeValues Ix.of F.post value self.entry.graph
            dot.edge_labels.second.values) }
    {
        let values = edge_values(alloc, self.graph, value)?;
        Ok(Dot {
            graph: self.graph,
            title: self.title,
            node_labels: self.node_labels,
            edge_labels: Both {
                first: self.edge_labels,
                second: Attribute::new(name, values),
            },
            clusters: self.clusters,
            has_clusters: self.has_clusters,
            direction: self.direction,
            stages: self.stages,
            marks: self.marks,
            node_weight: PhantomData,
            edge_weight: PhantomData,
        })
    }

    /// Draws a box, with its name above, around the nodes for which the closure returns the same
    /// name. Names are compared by their displayed text.
    ///
    /// # Requires
    ///
    /// - `name` may be called with each node and its weight.
    ///
    /// # Errors
    ///
    /// Returns `AllocError` if an allocation fails.
    ///
    /// # Complexity
    ///
    /// O(nodes), plus the calls.
    ///
    /// # Examples
    ///
    /// ```
    /// let mut dag: Dag<u32, ()> = Dag::new(rt.alloc());
    /// let sow = dag.add_node(2)?;
    /// let _ = dag.add_child(sow, (), 60)?;
    /// let weeks = |_, days: &u32| if *days < 7 { None } else { Some(*days / 7) };
    /// let dot = Dot::new(&dag).no_edge_labels().clusters(rt.alloc(), weeks)?;
    /// let picture = format!(in rt.alloc(); "{dot}")?;
    /// let line = "subgraph \"cluster_8\" { label = \"8\" 1 }";
    /// assert!(rt; picture.as_str().contains(line));
    /// ```
    pub fn clusters<D: Drop, F: Fn(NodeIndex<Ix>, &N) -> Option<D>>(
        self,
        alloc: Global,
        name: F,
    ) -> Result<Dot<'a, N, E, Ix, S, L, M, Clusters<D>>, AllocError>
        requires { CanCallAtEachNode Ix.of F.pre name self.graph }
        ensures rest { IfOk result (λ dot. dot ≡ with_clusters self.entry dot.clusters) }
        ensures names { IfOk result (λ dot. AreNodeValues Ix.of F.post name self.entry.graph
            dot.clusters) }
    {
        let names = node_values(alloc, self.graph, name)?;
        Ok(Dot {
            graph: self.graph,
            title: self.title,
            node_labels: self.node_labels,
            edge_labels: self.edge_labels,
            clusters: Clusters::new(names),
            has_clusters: true,
            direction: self.direction,
            stages: self.stages,
            marks: self.marks,
            node_weight: PhantomData,
            edge_weight: PhantomData,
        })
    }

    /// Sets a title, which is drawn above the graph.
    ///
    /// # Examples
    ///
    /// ```
    /// let dag: Dag<&'static str, u32> = Dag::new(rt.alloc());
    /// let picture = format!(in rt.alloc(); "{}", Dot::new(&dag).title("A garden"))?;
    /// assert!(rt; picture.as_str().contains("\"A garden\""));
    /// ```
    pub fn title(self, title: &'a str) -> Self
        ensures { result ≡ record self.entry { title = Some title.now } }
    {
        Dot {
            title: Some(title),
            ..self
        }
    }

    /// Puts the nodes of each stage, such as the stages of a plan, on one rank. Nodes that do not
    /// exist are left out.
    ///
    /// # Examples
    ///
    /// ```
    /// let mut dag: Dag<&'static str, u32> = Dag::new(rt.alloc());
    /// let sow = dag.add_node("sow")?;
    /// dag.add_child(sow, 90, "reap")?;
    /// dag.add_node("mend the fence")?;
    /// let plan = plan(rt.alloc(), &dag)?;
    /// let dot = Dot::new(&dag).ranks(plan.stages.as_slice());
    /// let picture = format!(in rt.alloc(); "{dot}")?;
    /// assert!(rt; picture.as_str().contains("{ rank = same; 0; 2; }"));
    /// ```
    pub fn ranks(self, stages: &'a [Vec<NodeIndex<Ix>>]) -> Self
        ensures { result ≡ record self.entry { stages = map vec_items stages.now } }
    {
        Dot { stages, ..self }
    }

    /// Draws the nodes of a path in bold, and the edges from each node of the path to the next.
    ///
    /// # Errors
    ///
    /// Returns `AllocError` if an allocation fails.
    ///
    /// # Complexity
    ///
    /// Expected O(length of the path), and expected O(1) for each node and edge when the picture is
    /// displayed.
    pub fn bold(self, alloc: Global, path: &[NodeIndex<Ix>]) -> Result<Self, AllocError>
        ensures rest { IfOk result (λ dot. dot ≡ record self.entry { marks = dot.marks }) }
        ensures marks { IfOk result (λ dot. AreMarksOf Ix.number path.now dot.marks) }
    {
        let marks = Marks::new(alloc, path)?;
        Ok(Dot {
            marks: Some(marks),
            ..self
        })
    }

    /// Sets the direction in which the picture is drawn.
    ///
    /// # Examples
    ///
    /// ```
    /// let dag: Dag<&'static str, u32> = Dag::new(rt.alloc());
    /// let dot = Dot::new(&dag).rank_dir(RankDir::BottomToTop);
    /// let picture = format!(in rt.alloc(); "{dot}")?;
    /// assert!(rt; picture.as_str().contains("rankdir = BT"));
    /// // `left_to_right` is short for `RankDir::LeftToRight`.
    /// let picture = format!(in rt.alloc(); "{}", Dot::new(&dag).left_to_right())?;
    /// assert!(rt; picture.as_str().contains("rankdir = LR"));
    /// ```
    pub fn rank_dir(self, direction: RankDir) -> Self
        ensures { result ≡ record self.entry { direction = direction } }
    {
        Dot { direction, ..self }
    }

    /// Draws each parent to the left of its children instead of above them.
    pub fn left_to_right(self) -> Self
        ensures { result ≡ record self.entry { direction = LeftToRight } }
    {
        self.rank_dir(RankDir::LeftToRight)
    }

    fn write_header<W: Write>(&self, f: &mut Formatter<W>) -> fmt::Result
        ensures { WritesOnOk W.write_str_gives f.old result (header self.now) f.new }
    {
        f.write_str("digraph {\n")?;
        write_direction(self.direction, f)?;
        write_rank_rule(self.has_clusters, f)?;
        write_title(self.title, f)
    }

    // Whether a node is drawn in bold.
    fn is_bold(&self, n: NodeIndex<Ix>) -> bool
        ensures { result ≡ is_bold self.now.marks (Ix.number n) }
    {
        match &self.marks {
            Some(marks) => marks.has_node(n.index()),
            None => false,
        }
    }

    // Whether an edge is drawn in bold.
    fn is_bold_edge(&self, a: NodeIndex<Ix>, b: NodeIndex<Ix>) -> bool
        ensures { result ≡ is_bold_edge self.now.marks (Ix.number a) (Ix.number b) }
    {
        match &self.marks {
            Some(marks) => marks.has_step(a.index(), b.index()),
            None => false,
        }
    }

    // Writes the existing nodes of a stage.
    fn write_stage<W: Write>(&self, stage: &[NodeIndex<Ix>], f: &mut Formatter<W>) -> fmt::Result
        ensures { WritesOnOk W.write_str_gives f.old result
            (rank_line Ix.number self.now.graph stage.now) f.new }
    {
        f.write_str("    { rank = same; ")?;
        for n in stage {
            if self.graph.contains_node(*n) {
                let x = n.index();
                write!(f, "{x}; ")?;
            }
        }
        f.write_str("}\n")
    }

    fn write_stages<W: Write>(&self, f: &mut Formatter<W>) -> fmt::Result
        ensures { WritesOnOk W.write_str_gives f.old result
            (flat_map (rank_line Ix.number self.now.graph) self.now.stages) f.new }
    {
        for stage in self.stages {
            self.write_stage(stage.as_slice(), f)?;
        }
        Ok(())
    }
}

impl<N: Drop, E: Drop, Ix: IndexType, S, L, M, K> Dot<'_, N, E, Ix, S, L, M, K>
where
    S: ReadStore<Ix, NodeWeight = N, EdgeWeight = E>,
    L: Label<NodeIndex<Ix>, N> + Drop,
    M: Label<EdgeIndex<Ix>, E> + Drop,
    K: Label<NodeIndex<Ix>, N> + Drop,
{
    // Writes a node, and its box.
    fn write_one<W: Write>(&self, n: NodeIndex<Ix>, weight: &N, f: &mut Formatter<W>) -> fmt::Result
        ensures { DisplaysOnOk W.write_str_gives f.old result
            (node_line (Ix.number n) (L.text self.now.node_labels n weight.now)
            (is_bold self.now.marks (Ix.number n)) ++? K.text self.now.clusters n weight.now)
            f.new }
    {
        write_node(n, weight, &self.node_labels, self.is_bold(n), f)?;
        self.clusters.write(n, weight, f)
    }

    fn write_nodes<W: Write>(&self, f: &mut Formatter<W>) -> fmt::Result
        ensures { DisplaysOnOk W.write_str_gives f.old result
            (lines_of (line_of_node Ix.of L.text K.text self.now) self.now.graph.nodes
            (length self.now.graph.nodes)) f.new }
    {
        self.graph.invariant();
        'nodes: for x in 0..self.graph.node_slots() {
            let n = NodeIndex::new(x);
            if let Some(weight) = self.graph.node_weight(n) {
                self.write_one(n, weight, f)?;
            }
        }
        Ok(())
    }

    // Writes an edge.
    fn write_arrow<W: Write>(
        &self,
        edge: (EdgeIndex<Ix>, NodeIndex<Ix>, NodeIndex<Ix>),
        weight: &E,
        f: &mut Formatter<W>,
    ) -> fmt::Result
        ensures { DisplaysOnOk W.write_str_gives f.old result
            (edge_line (Ix.number edge.1) (Ix.number edge.2)
            (M.text self.now.edge_labels edge.0 weight.now)
            (is_bold_edge self.now.marks (Ix.number edge.1) (Ix.number edge.2))) f.new }
    {
        let is_bold = self.is_bold_edge(edge.1, edge.2);
        write_edge(edge, weight, &self.edge_labels, is_bold, f)
    }

    fn write_edges<W: Write>(&self, f: &mut Formatter<W>) -> fmt::Result
        ensures { DisplaysOnOk W.write_str_gives f.old result
            (lines_of (line_of_edge Ix.of M.text self.now) self.now.graph.edges
            (length self.now.graph.edges)) f.new }
    {
        self.graph.invariant();
        'edges: for x in 0..self.graph.edge_slots() {
            let e = EdgeIndex::new(x);
            if let Some(ends) = self.graph.edge_endpoints(e) {
                if let Some(weight) = self.graph.edge_weight(e) {
                    self.write_arrow((e, ends.0, ends.1), weight, f)?;
                }
            }
        }
        Ok(())
    }
}

impl<N: Drop, E: Drop, Ix: IndexType, S, L, M, K> Display for Dot<'_, N, E, Ix, S, L, M, K>
where
    S: ReadStore<Ix, NodeWeight = N, EdgeWeight = E>,
    L: Label<NodeIndex<Ix>, N> + Drop,
    M: Label<EdgeIndex<Ix>, E> + Drop,
    K: Label<NodeIndex<Ix>, N> + Drop,
{
    ghost use Rattle.daggy_dot.specs.Picture.{picture};

    ghost output = { picture Ix.number Ix.of L.text M.text K.text };

    fn fmt<W: Write>(&self, f: &mut Formatter<W>) -> fmt::Result {
        self.write_header(f)?;
        self.write_nodes(f)?;
        self.write_edges(f)?;
        self.write_stages(f)?;
        f.write_str("}\n")
    }
}
