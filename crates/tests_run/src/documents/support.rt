//! Small dags, and what a document of one is to be.
ghost use Rattle.std.specs.Prelude.{◌≡◌, IsTrue, Ok, IfOk};
ghost use Rattle.serde_json.specs.View.{view};
ghost use Rattle.daggy_json.specs.Document.{whole};
ghost use Rattle.daggy_json.specs.Reading.{whole_in};

use daggy_base::index::{EdgeIndex, NodeIndex};
use daggy_base::store::Store;
use daggy_dag::acyclic::{Acyclic, Dag, StableDag};
use daggy_graph::graph::DiGraph;
use daggy_json::documents::{dag_from_json, dag_to_json, stable_from_json, stable_to_json};
use daggy_json::error::{ReadError, WriteError};
use daggy_stable::stable_graph::StableDiGraph;
use serde_json::Value;
use std::alloc::{AllocError, Global};
use std::process::Abort;

/// A dag of either kind that has few indices.
pub type Plain<S> = Acyclic<u64, u64, u8, S>;

/// A compact dag that has few indices.
pub type Small = Dag<u64, u64, u8>;

/// A stable dag that has few indices.
pub type SmallStable = StableDag<u64, u64, u8>;

/// The store of the compact kind.
pub type Compact = DiGraph<u64, u64, u8>;

/// The store of the stable kind.
pub type Stable = StableDiGraph<u64, u64, u8>;

/// A store of numbers, with the documents of its dags.
pub trait Kind: Store<u8, NodeWeight = u64, EdgeWeight = u64> {
    /// The document of a dag.
    fn document(alloc: Global, dag: &Plain<Self>) -> Result<Value, WriteError>;

    /// The document of a dag, if there were no memory for the weights of its nodes.
    fn refused_document(alloc: Global, dag: &Plain<Self>) -> Result<Value, WriteError>;

    /// The dag of a document.
    fn read(alloc: Global, value: &Value) -> Result<Plain<Self>, ReadError>;

    /// The dag of a document, if there were no memory for the weights of its nodes or of its edges.
    fn read_starving(
        alloc: Global,
        value: &Value,
        of_nodes: bool,
    ) -> Result<Plain<Self>, ReadError>;
}

impl Kind for Compact {
    fn document(alloc: Global, dag: &Plain<Self>) -> Result<Value, WriteError> {
        dag_to_json(alloc, dag, number, number)
    }

    fn refused_document(alloc: Global, dag: &Plain<Self>) -> Result<Value, WriteError> {
        dag_to_json(alloc, dag, refuse, number)
    }

    fn read(alloc: Global, value: &Value) -> Result<Plain<Self>, ReadError> {
        dag_from_json(alloc, value, weight, weight)
    }

    fn read_starving(
        alloc: Global,
        value: &Value,
        of_nodes: bool,
    ) -> Result<Plain<Self>, ReadError> {
        if of_nodes {
            dag_from_json(alloc, value, starve, weight)
        } else {
            dag_from_json(alloc, value, weight, starve)
        }
    }
}

impl Kind for Stable {
    fn document(alloc: Global, dag: &Plain<Self>) -> Result<Value, WriteError> {
        stable_to_json(alloc, dag, number, number)
    }

    fn refused_document(alloc: Global, dag: &Plain<Self>) -> Result<Value, WriteError> {
        stable_to_json(alloc, dag, refuse, number)
    }

    fn read(alloc: Global, value: &Value) -> Result<Plain<Self>, ReadError> {
        stable_from_json(alloc, value, weight, weight)
    }

    fn read_starving(
        alloc: Global,
        value: &Value,
        of_nodes: bool,
    ) -> Result<Plain<Self>, ReadError> {
        if of_nodes {
            stable_from_json(alloc, value, starve, weight)
        } else {
            stable_from_json(alloc, value, weight, starve)
        }
    }
}

/// How a dag is made: by the weights of its nodes, its edges, each with its parent, its child and
/// its weight, and the nodes and edges that are removed again.
#[derive(Clone, Copy)]
pub struct Recipe<'a> {
    pub nodes: &'a [u64],
    pub edges: &'a [(usize, usize, u64)],
    pub gone_nodes: &'a [usize],
    pub gone_edges: &'a [usize],
}

/// No nodes.
pub const EMPTY: Recipe<'static> = Recipe {
    nodes: &[],
    edges: &[],
    gone_nodes: &[],
    gone_edges: &[],
};

/// One node.
pub const ONE_NODE: Recipe<'static> = Recipe {
    nodes: &[1],
    ..EMPTY
};

/// Three nodes, and three edges from the first, of which two are parallel.
pub const PARALLEL: Recipe<'static> = Recipe {
    nodes: &[1, 2, 3],
    edges: &[(0, 1, 4), (0, 2, 5), (0, 1, 6)],
    gone_nodes: &[],
    gone_edges: &[],
};

/// The same without the oldest edge.
pub const FIRST_EDGE_GONE: Recipe<'static> = Recipe {
    gone_edges: &[0],
    ..PARALLEL
};

/// Three nodes, of which the second is removed.
pub const NODE_GONE: Recipe<'static> = Recipe {
    nodes: &[10, 20, 30],
    edges: &[(0, 1, 4), (0, 2, 5)],
    gone_nodes: &[1],
    gone_edges: &[],
};

/// The same without the third node.
pub const NODES_GONE: Recipe<'static> = Recipe {
    gone_nodes: &[1, 2],
    ..NODE_GONE
};

/// The document of no nodes.
pub const NOTHING: &str =
    "{\"edge_property\":\"directed\",\"edges\":[],\"node_holes\":[],\"nodes\":[],\"orders\":[]}";

/// The document of nodes 1, 2 and 3, where the newest edge has the lower index.
pub const REORDERED: &str =
    "{\"edge_property\":\"directed\",\"edges\":[[0,1,6],[0,2,5]],\"node_holes\":[],\
     \"nodes\":[1,2,3],\"orders\":[[[0,1],[]],[[],[0]],[[],[1]]]}";

/// The document of a dag with a vacant slot of a node and one of an edge.
pub const VACANT: &str =
    "{\"edge_property\":\"directed\",\"edges\":[null,[0,2,5]],\"node_holes\":[1],\
     \"nodes\":[10,30],\"orders\":[[[1],[]],[[],[1]]]}";

pub fn holds(rt: &impl Abort, fact: bool)
    ensures { IsTrue fact }
{
    assert!(rt; fact);
}

pub fn made<T: Drop, E: Drop>(rt: &impl Abort, answer: Result<T, E>) -> T
    ensures { answer ≡ Ok result }
{
    match answer {
        Ok(x) => x,
        Err(_) => panic!(rt; "the call was refused"),
    }
}

pub fn node(rt: &impl Abort, n: usize) -> NodeIndex<u8> {
    holds(rt, n < 255);
    NodeIndex::new(n)
}

pub fn edge(rt: &impl Abort, e: usize) -> EdgeIndex<u8> {
    holds(rt, e < 255);
    EdgeIndex::new(e)
}

/// A dag that is made by a recipe.
pub fn dag_of<S: Store<u8, NodeWeight = u64, EdgeWeight = u64>>(
    rt: &impl Abort,
    alloc: Global,
    recipe: Recipe<'_>,
) -> Plain<S> {
    let mut dag = Plain::<S>::new(alloc);
    for weight in recipe.nodes {
        holds(rt, dag.can_add_node());
        let _n = made(rt, dag.add_node(*weight));
    }
    for (parent, child, weight) in recipe.edges {
        let (a, b) = (node(rt, *parent), node(rt, *child));
        holds(rt, dag.contains_node(a) && dag.contains_node(b));
        holds(rt, dag.can_add_edge());
        let _e = made(rt, dag.add_edge(a, b, *weight));
    }
    for n in recipe.gone_nodes {
        let _weight = dag.remove_node(node(rt, *n));
    }
    for e in recipe.gone_edges {
        let _weight = dag.remove_edge(edge(rt, *e));
    }
    dag
}

// A weight as it is written.
pub fn number(weight: &u64) -> Result<Value, AllocError>
    ensures { IfOk result (λ v. view v ≡ whole weight.now) }
{
    Ok(Value::from(*weight))
}

fn refuse(_weight: &u64) -> Result<Value, AllocError> {
    Err(AllocError)
}

// A whole number; anything else is refused.
pub fn weight(value: &Value) -> Result<Option<u64>, AllocError>
    ensures { IfOk result (λ o. o ≡ whole_in (view value.now)) }
{
    Ok(value.as_u64())
}

pub fn starve(_value: &Value) -> Result<Option<u64>, AllocError> {
    Err(AllocError)
}

/// The value of a text.
pub fn value_of(rt: &impl Abort, alloc: Global, text: &str) -> Value {
    match Value::from_str(alloc, text) {
        Ok(value) => value,
        Err(_) => panic!(rt; "the text is no JSON"),
    }
}

/// Asserts the text of a value.
pub fn is_text(rt: &impl Abort, alloc: Global, value: &Value, wanted: &str) {
    let text = made(rt, value.to_string(alloc));
    holds(rt, text.as_str() == wanted);
}

/// Asserts the text of the document of a dag.
pub fn is_written<S: Kind>(rt: &impl Abort, alloc: Global, dag: &Plain<S>, wanted: &str) {
    let value = made(rt, S::document(alloc, dag));
    is_text(rt, alloc, &value, wanted);
}
