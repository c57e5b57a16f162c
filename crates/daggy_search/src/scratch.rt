//! The memory of searches.
ghost use Rattle.std.specs.Prelude.{◌≡◌, ℕ, ◌≤◌, ◌↔◌, IsTrue, IsOk, OnOk, [], vec_len};

use crate::arcs::{Arc, Segment};
use crate::row::Row;
use crate::worklist::Worklist;
use daggy_base::index::{EdgeIndex, IndexType};
use daggy_base::reserved::reserve;
use std::alloc::{AllocError, Global};
use std::marker::Model;

/// The memory for searches: a worklist, a list for the edges that a search finds, and, for a search
/// by blocks of nodes, a row of bits for each node and an array of all edges.
///
/// A search does not allocate: it uses a scratch that [`reserve`](Scratch::reserve) made large
/// enough before. Memory for nodes is reserved there, but initialised by the first search, so a
/// graph that is never searched pays little for it.
///
/// # Examples
///
/// ```
/// let mut graph: DiGraph<&'static str, ()> = DiGraph::new(rt.alloc());
/// let sow = graph.add_node("sow")?;
/// let mut scratch = Scratch::new(rt.alloc());
/// scratch.reserve(graph.node_count(), 0)?;
/// // From here on searches of this graph do not allocate.
/// assert!(rt; scratch.fits(graph.node_count(), 0));
/// assert!(rt; reaches(&mut graph, sow, sow, &mut scratch));
/// ```
#[derive(Drop)]
pub struct Scratch<Ix: IndexType> {
    #[doc(hidden)]
    pub work: Worklist<Ix>,
    /// For the edges that a search finds.
    #[doc(hidden)]
    pub found: Vec<EdgeIndex<Ix>>,
    /// A row for each node, for a search by blocks.
    #[doc(hidden)]
    pub rows: Vec<Row>,
    /// Where the edges that leave each node are in `arcs`: as many segments as `rows`, or more.
    #[doc(hidden)]
    pub segments: Vec<Segment>,
    /// The edges that leave nodes, for a search by blocks. There is memory for as many as `found` has.
    #[doc(hidden)]
    pub arcs: Vec<Arc<Ix>>,
}

impl<Ix: IndexType> Model for Scratch<Ix> {
    ghost use Rattle.std.specs.Prelude.{◌≤◌, vec_len, vec_capacity};
    ghost use Rattle.daggy_search.specs.Room.{Room};

    ghost Value = { Room Ix };

    ghost view = { λ s.
        record {
          nodes = s.work.size;
          edges = vec_len s.found;
          rows = vec_len s.rows;
          found = s.found.items;
        } };

    ghost invariant = { λ s.
        (vec_len s.found ≤ vec_capacity s.arcs) × (vec_len s.rows ≤ vec_len s.segments) };
}

// Appends empty rows until there are `len`.
fn grow_rows(rows: &mut Vec<Row>, len: usize) -> Result<(), AllocError>
    ensures ok { OnOk result (len ≤ vec_len rows.new) }
    ensures more { vec_len rows.old ≤ vec_len rows.new }
    ensures most { vec_len rows.old ≤ len → vec_len rows.new ≤ len }
{
    reserve(rows, len)?;
    'rows: while rows.len() < len {
        rows.push(Row::new())?;
    }
    Ok(())
}

impl<Ix: IndexType> Scratch<Ix> {
    /// An empty scratch, which fits only the empty graph: call [`reserve`](Scratch::reserve) before
    /// a search. Does not allocate.
    pub fn new(alloc: Global) -> Self
        ensures { result ≡ record { nodes = 0; edges = 0; rows = 0; found = [] } }
    {
        Scratch {
            work: Worklist::new(alloc),
            found: Vec::new(alloc),
            rows: Vec::new(alloc),
            segments: Vec::new(alloc),
            arcs: Vec::new(alloc),
        }
    }

    /// The allocator of its memory.
    ///
    /// # Examples
    ///
    /// ```
    /// let scratch: Scratch<u32> = Scratch::new(rt.alloc());
    /// let mut other: Scratch<u32> = Scratch::new(scratch.allocator());
    /// other.reserve(8, 0)?;
    /// assert!(rt; other.fits(8, 0) && !scratch.fits(8, 0));
    /// ```
    #[inline]
    pub fn allocator(&self) -> Global {
        *self.found.allocator()
    }

    /// Whether graphs with these bounds can be searched.
    #[inline]
    pub fn fits(&self, node_bound: usize, edge_bound: usize) -> bool
        ensures { IsTrue result ↔ ((node_bound ≤ self.now.nodes) × (edge_bound ≤ self.now.edges)) }
    {
        node_bound <= self.work.len() && edge_bound <= self.found.len()
    }

    /// Makes room for searches of graphs with these bounds or smaller ones: `node_bound` is one
    /// more than the greatest node index, and `edge_bound` one more than the greatest edge index.
    /// [`fits`](Scratch::fits) returns whether there is already enough room.
    ///
    /// # Errors
    ///
    /// Returns `AllocError` if an allocation fails. The scratch still has room for every graph for
    /// which it had room before.
    ///
    /// # Complexity
    ///
    /// O(`node_bound` + `edge_bound`), if there is not enough room yet.
    #[inline]
    pub fn reserve(&mut self, node_bound: usize, edge_bound: usize) -> Result<(), AllocError>
        ensures ok { OnOk result ((node_bound ≤ self.new.nodes) × (edge_bound ≤ self.new.edges)) }
        ensures kept { (self.old.nodes ≤ self.new.nodes) × (self.old.edges ≤ self.new.edges) }
        ensures succeeds { node_bound ≤ self.old.nodes → edge_bound ≤ self.old.edges → IsOk result }
        ensures rows_kept { self.new.rows ≡ self.old.rows }
    {
        if self.fits(node_bound, edge_bound) {
            return Ok(());
        }
        self.grow(node_bound, edge_bound)
    }

    // Out of line, to keep what adds a node small where it is inlined.
    #[cold]
    #[inline(never)]
    fn grow(&mut self, node_bound: usize, edge_bound: usize) -> Result<(), AllocError>
        ensures ok { OnOk result ((node_bound ≤ self.new.nodes) × (edge_bound ≤ self.new.edges)) }
        ensures kept { (self.old.nodes ≤ self.new.nodes) × (self.old.edges ≤ self.new.edges) }
        ensures rows_kept { self.new.rows ≡ self.old.rows }
    {
        if self.work.len() < node_bound {
            self.work.grow(node_bound)?;
        }
        if self.found.len() < edge_bound {
            reserve(&mut self.arcs, edge_bound)?;
            self.found.resize(edge_bound, EdgeIndex::end())?;
        }
        Ok(())
    }

    /// Makes room for searches by blocks of nodes, such as `redundant_edges_by_blocks`: 80 bytes
    /// for each node below the bound.
    ///
    /// # Errors
    ///
    /// Returns `AllocError` if an allocation fails. The scratch still has room for every graph for
    /// which it had room before.
    ///
    /// # Complexity
    ///
    /// O(`node_bound`), if there is not enough room yet.
    ///
    /// # Examples
    ///
    /// ```
    /// let mut graph: DiGraph<&'static str, ()> = DiGraph::new(rt.alloc());
    /// let sow = graph.add_node("sow")?;
    /// let mut scratch = Scratch::new(rt.alloc());
    /// scratch.reserve(graph.node_count(), graph.edge_count())?;
    /// scratch.reserve_rows(graph.node_count())?;
    /// if let Some(order) = Order::sorted(rt.alloc(), &mut graph, &mut scratch)? {
    ///     let redundant = redundant_edges_by_blocks(&mut scratch, &mut graph, &order, &[sow]);
    ///     assert!(rt; redundant.is_empty());
    /// }
    /// ```
    #[inline]
    pub fn reserve_rows(&mut self, node_bound: usize) -> Result<(), AllocError>
        ensures ok { OnOk result (node_bound ≤ self.new.rows) }
        ensures more { self.old.rows ≤ self.new.rows }
        ensures kept { (self.new.nodes ≡ self.old.nodes) × (self.new.edges ≡ self.old.edges) }
        ensures succeeds { node_bound ≤ self.old.rows → IsOk result }
    {
        if self.rows.len() < node_bound {
            self.segments
                .resize(node_bound, Segment { begin: 0, end: 0 })?;
            return grow_rows(&mut self.rows, node_bound);
        }
        Ok(())
    }
}
