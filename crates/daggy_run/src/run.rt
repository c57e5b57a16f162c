//! A list of commands, carried out in order.
ghost use Rattle.std.specs.Prelude.{◌≡◌, map, IfOk, IfErr, OnErr};
ghost use Rattle.daggy_base.specs.Path.{IsAcyclic};
ghost use Rattle.daggy_base.specs.Requests.{request_of};
ghost use Rattle.daggy_base.specs.Answers.{answer_of};
ghost use Rattle.daggy_run.specs.Runs.{IsRun, IsAsCompact};

use crate::guarded::GuardedDag;
use crate::step::perform;
use daggy_base::command::{Command, Reply};
use daggy_base::index::IndexType;
use std::alloc::Global;

/// Carries out commands in order, and returns one reply for each. A command that fails changes
/// nothing; later commands still run.
///
/// # Errors
///
/// Returns the commands if memory for the replies cannot be allocated; in that case none was
/// carried out.
///
/// # Complexity
///
/// The cost of [`perform`] for each command.
///
/// # Examples
///
/// ```
/// let mut dag: Dag<u32, u32> = Dag::new(rt.alloc());
/// let sow = NodeIndex::new(0);
/// let mut commands = Vec::new(rt.alloc());
/// commands.push(Command::Node(1))?;
/// commands.push(Command::Child(sow, 90, 2))?;
/// commands.push(Command::Edge(NodeIndex::new(1), sow, 5))?;
/// match run(rt.alloc(), &mut dag, commands) {
///     Ok(replies) => assert!(rt; replies.get(2) == Some(&Reply::Cycle(5))),
///     Err(_commands) => return Err(AllocError.into()),
/// }
/// ```
pub fn run<N: Drop, E: Drop, Ix: IndexType, D: GuardedDag<N, E, Ix>>(
    alloc: Global,
    dag: &mut D,
    commands: Vec<Command<N, E, Ix>>,
) -> Result<Vec<Reply<N, E, Ix>>, Vec<Command<N, E, Ix>>>
    ensures run { IfOk result (λ replies. IsRun D.KIND Ix.greatest (D.graph dag.old)
        (map (request_of Ix.number) commands.items) (map (answer_of Ix.number) replies.items)
        (D.graph dag.new)) }
    ensures as_compact { IfOk result (λ replies. IsAsCompact Ix.greatest (D.graph dag.old)
        (map (request_of Ix.number) commands.items) (map (answer_of Ix.number) replies.items)
        (D.graph dag.new)) }
    ensures handed_back { IfErr result (λ back. back.items ≡ commands.items) }
    ensures unchanged { OnErr result (D.graph dag.new ≡ D.graph dag.old) }
    ensures acyclic { IsAcyclic (D.graph dag.new) }
{
    // Called only for its postcondition: there is no cycle.
    let _acyclic = dag.can_add_node();
    let mut replies = Vec::new(alloc);
    if replies.reserve(commands.len()).is_err() {
        return Err(commands);
    }
    'commands: for command in commands {
        let reply = perform(dag, command);
        replies.push_reserved(reply);
    }
    Ok(replies)
}
