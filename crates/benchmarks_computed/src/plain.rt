//! Values that are computed without asking whether they have to be.
use crate::figures::{Figures, median, mixed, since};
use crate::formula::{Formula, number};
use crate::shapes::{Parents, Work};
use daggy::{Acyclic, NodeIndex, Store, Walker};
use std::alloc::AllocError;
use std::io;
use std::rt::CpuClock;

/// A formula and a value.
#[derive(Clone, Copy)]
pub struct Cell {
    formula: Formula,
    value: i64,
}

/// Which nodes are computed after changes.
#[derive(Clone, Copy)]
pub enum Part {
    /// All of them.
    All,
    /// Those that changed, and all that depend on them.
    Affected,
}

// Adds the nodes, and then their parents. The error says that something was refused.
fn fill<S: Store<u32, NodeWeight = Cell, EdgeWeight = ()>>(
    dag: &mut Acyclic<Cell, (), u32, S>,
    formulas: &[Formula],
    parents: Vec<(NodeIndex, Parents)>,
) -> Result<(), AllocError> {
    for formula in formulas {
        let cell = Cell {
            formula: *formula,
            value: 0,
        };
        if !dag.can_add_node() || dag.add_node(cell).is_err() {
            return Err(AllocError);
        }
    }
    for (n, parents) in parents {
        if !dag.contains_node(n) || !dag.contains_parents(parents.as_slice()) {
            return Err(AllocError);
        }
        if dag.set_parents(n, parents).is_err() {
            return Err(AllocError);
        }
    }
    Ok(())
}

// Gives the nodes that change the numbers of a round.
fn change<S: Store<u32, NodeWeight = Cell, EdgeWeight = ()>>(
    dag: &mut Acyclic<Cell, (), u32, S>,
    changed: &[NodeIndex],
    round: u32,
) {
    for n in changed {
        if let Some(cell) = dag.node_weight_mut(*n) {
            cell.formula = cell.formula.with_number(number(n.index(), round));
        }
    }
}

// The value of a node.
#[inline]
fn value<S: Store<u32, NodeWeight = Cell, EdgeWeight = ()>>(
    dag: &Acyclic<Cell, (), u32, S>,
    n: NodeIndex,
) -> i64 {
    let Some(cell) = dag.node_weight(n) else {
        return 0;
    };
    let mut value = cell.formula.first();
    for (_, parent) in dag.parents(n).iter(dag) {
        value = cell
            .formula
            .joined(value, dag.node_weight(parent).map_or(0, |it| it.value));
    }
    cell.formula.last(value)
}

// Computes the nodes of a part, and returns how many there were.
fn compute<S: Store<u32, NodeWeight = Cell, EdgeWeight = ()>>(
    dag: &mut Acyclic<Cell, (), u32, S>,
    part: Part,
    changed: &[NodeIndex],
) -> Result<usize, AllocError> {
    let nodes: Vec<NodeIndex> = match part {
        Part::All => dag.topological_order().collect(dag.allocator())?,
        Part::Affected => dag.affected(changed)?,
    };
    for n in nodes.as_slice() {
        let value = value(dag, *n);
        if let Some(cell) = dag.node_weight_mut(*n) {
            cell.value = value;
        }
    }
    Ok(nodes.len())
}

// A number of all values.
fn check<S: Store<u32, NodeWeight = Cell, EdgeWeight = ()>>(
    dag: &Acyclic<Cell, (), u32, S>,
    nodes: usize,
) -> u64 {
    let mut sum = 0u64;
    for n in 0..nodes {
        if n <= u32::MAX as usize {
            let value = dag
                .node_weight(NodeIndex::new(n))
                .map_or(0, |cell| cell.value);
            sum = mixed(sum, value);
        }
    }
    sum
}

// Fills a dag, and times that many rounds of changes. One more round is counted, and not timed.
fn time_rounds<S: Store<u32, NodeWeight = Cell, EdgeWeight = ()>, R: AllocGlobal + CpuClock>(
    rt: &R,
    dag: &mut Acyclic<Cell, (), u32, S>,
    part: Part,
    work: Work,
    rounds: u32,
) -> io::Result<Figures> {
    let Work {
        formulas,
        parents,
        changed,
    } = work;
    fill(dag, formulas.as_slice(), parents)?;
    let _all = compute(dag, Part::All, changed.as_slice())?;
    let mut times = Vec::new(rt.alloc());
    for round in 0..rounds {
        let start = rt.process_cpu_time()?;
        change(dag, changed.as_slice(), round);
        let _computed = compute(dag, part, changed.as_slice())?;
        times.push(since(rt, start)?)?;
    }
    change(dag, changed.as_slice(), rounds);
    let computed = compute(dag, part, changed.as_slice())? as u64;
    let check = check(dag, formulas.len());
    let time = median(times)?;
    Ok(Figures {
        time,
        computed,
        check,
    })
}

/// Changes, and all nodes of a part computed.
pub fn computed<S, R>(rt: &R, part: Part, work: Work, rounds: u32) -> io::Result<Figures>
where
    S: Store<u32, NodeWeight = Cell, EdgeWeight = ()>,
    R: AllocGlobal + CpuClock,
{
    let mut dag: Acyclic<Cell, (), u32, S> = Acyclic::new(rt.alloc());
    time_rounds(rt, &mut dag, part, work, rounds)
}
