//! What is timed, by name.
use crate::builds::{
    Input, Older, add_child_tree, add_edges, build_backward, timed_build, update_edges,
};
use crate::churn::come_and_go;
use crate::documents::{json_read, json_short, json_stream, json_write};
use crate::figures::Figures;
use crate::graph::Kind;
use crate::inputs::Sizes;
use crate::plans::plan_stages;
use crate::questions::{Question, ask};
use crate::readings::{Reading, copy, find_edges, map_weights, read};
use crate::reductions::{Shape, close, compare, reduce_all, reduce_layers};
use crate::removals::{Part, remove};
use crate::schedules::{Listing, list, schedule};
use crate::small::{Life, many};
use crate::types::Types;
use daggy::{Dag, StableDag};
use std::io;
use std::rt::CpuClock;

type Compact = Dag<i64, i64, u32>;

type Stable = StableDag<i64, i64, u32>;

/// What is timed.
#[derive(Clone, Copy)]
pub enum Workload {
    Build(Input),
    Backward(Older),
    AddEdges,
    UpdateEdges,
    AddChildTree,
    Many(Life),
    Read(Reading),
    FindEdges,
    Types(Types),
    MapWeights,
    Copy,
    Remove(Part),
    ReduceLayers,
    Reduce(Shape),
    Close,
    Compare,
    Churn,
    Plan,
    JsonWrite,
    JsonStream,
    JsonShort,
    JsonRead,
    Ask(Question),
    List(Listing),
    Schedule,
}

impl Workload {
    pub fn named(name: &str) -> Option<Workload> {
        match name {
            "build_random" => Some(Workload::Build(Input::Random)),
            "build_lowhigh" => Some(Workload::Build(Input::LowHigh)),
            "build_sorted" => Some(Workload::Build(Input::Sorted)),
            "build_older" => Some(Workload::Build(Input::Older)),
            "build_mixed" => Some(Workload::Build(Input::Mixed)),
            "chain_back" => Some(Workload::Backward(Older::Last)),
            "hub_back" => Some(Workload::Backward(Older::First)),
            "add_edges" => Some(Workload::AddEdges),
            "update_hit" => Some(Workload::UpdateEdges),
            "many_small" => Some(Workload::Many(Life::Walked)),
            "many_emptied" => Some(Workload::Many(Life::Emptied)),
            "add_child_tree" => Some(Workload::AddChildTree),
            "walk_children" => Some(Workload::Read(Reading::WalkChildren)),
            "fold_children" => Some(Workload::Read(Reading::FoldChildren)),
            "take_even" => Some(Workload::Read(Reading::TakeEven)),
            "edge_list" => Some(Workload::Read(Reading::EdgeList)),
            "find_edge" => Some(Workload::FindEdges),
            "walk_u16" => Some(Workload::Types(Types::ShortIndices)),
            "walk_usize" => Some(Workload::Types(Types::WideIndices)),
            "build_texts" => Some(Workload::Types(Types::Texts)),
            "map_weights" => Some(Workload::MapWeights),
            "copy" => Some(Workload::Copy),
            "remove_nodes" => Some(Workload::Remove(Part::Nodes)),
            "remove_edges" => Some(Workload::Remove(Part::Edges)),
            "reduce" => Some(Workload::ReduceLayers),
            "reduce_random" => Some(Workload::Reduce(Shape::Random)),
            "reduce_local" => Some(Workload::Reduce(Shape::Local)),
            "reduce_chain" => Some(Workload::Reduce(Shape::Chain)),
            "reduce_complete" => Some(Workload::Reduce(Shape::Complete)),
            "reduce_diamonds" => Some(Workload::Reduce(Shape::Diamonds)),
            "close" => Some(Workload::Close),
            "compare" => Some(Workload::Compare),
            "churn" => Some(Workload::Churn),
            "plan" => Some(Workload::Plan),
            "json_write" => Some(Workload::JsonWrite),
            "json_stream" => Some(Workload::JsonStream),
            "json_short" => Some(Workload::JsonShort),
            "json_read" => Some(Workload::JsonRead),
            "reaches" => Some(Workload::Ask(Question::Reaches)),
            "path" => Some(Workload::Ask(Question::Path)),
            "descendants" => Some(Workload::Ask(Question::Descendants)),
            "bfs" => Some(Workload::Ask(Question::BreadthFirst)),
            "dfs" => Some(Workload::Ask(Question::DepthFirst)),
            "postorder" => Some(Workload::Ask(Question::Postorder)),
            "toposort" => Some(Workload::List(Listing::Sorted)),
            "ready" => Some(Workload::List(Listing::Ready)),
            "schedule" => Some(Workload::Schedule),
            _ => None,
        }
    }

    /// Runs it over a compact dag, or over a stable one.
    pub fn run<R: AllocGlobal + CpuClock>(
        self,
        rt: &R,
        stable: bool,
        sizes: Sizes,
    ) -> io::Result<Figures> {
        if stable {
            self.run_over::<Stable, R>(rt, sizes)
        } else {
            self.run_over::<Compact, R>(rt, sizes)
        }
    }

    fn run_over<G: Kind, R: AllocGlobal + CpuClock>(
        self,
        rt: &R,
        sizes: Sizes,
    ) -> io::Result<Figures> {
        match self {
            Workload::Build(input) => timed_build::<G, R>(rt, input, sizes),
            Workload::Backward(older) => build_backward::<G, R>(rt, older, sizes),
            Workload::UpdateEdges => update_edges::<G, R>(rt, sizes),
            Workload::Many(life) => many::<G, R>(rt, life, sizes),
            Workload::AddEdges => add_edges::<G, R>(rt, sizes),
            Workload::AddChildTree => add_child_tree::<G, R>(rt, sizes),
            Workload::Read(reading) => read::<G, R>(rt, reading, sizes),
            Workload::FindEdges => find_edges::<G, R>(rt, sizes),
            Workload::Types(types) => types.run::<R>(rt, G::keeps_indices(), sizes),
            Workload::MapWeights => map_weights::<G, R>(rt, sizes),
            Workload::Copy => copy::<G, R>(rt, sizes),
            Workload::Remove(part) => remove::<G, R>(rt, part, sizes),
            Workload::ReduceLayers => reduce_layers::<G, R>(rt, sizes),
            Workload::Reduce(shape) => reduce_all::<G, R>(rt, shape, sizes),
            Workload::Close => close::<G, R>(rt, sizes),
            Workload::Compare => compare::<R>(rt, sizes),
            Workload::Churn => come_and_go::<G, R>(rt, sizes),
            Workload::Plan => plan_stages::<G, R>(rt, sizes),
            Workload::JsonWrite => json_write::<G, R>(rt, sizes),
            Workload::JsonStream => json_stream::<G, R>(rt, sizes),
            Workload::JsonShort => json_short::<G, R>(rt, sizes),
            Workload::JsonRead => json_read::<G, R>(rt, sizes),
            Workload::Ask(question) => ask::<G, R>(rt, question, sizes),
            Workload::List(listing) => list::<G, R>(rt, listing, sizes),
            Workload::Schedule => schedule::<G, R>(rt, sizes),
        }
    }
}
