//! A whole run.
ghost use Rattle.std.specs.Prelude.{◌≡◌, ◌<◌, ◌↔◌, [], ◌++◌, true, false, Err, OnOk, IfSome, length};
ghost use Rattle.daggy.specs.Graph.{empty};
ghost use Rattle.dagbench_engine.specs.Arguments.{kind_of, plans as plans_of};
ghost use Rattle.dagbench_lines.specs.Cutting.{lines_of, ended_lines_of};
ghost use Rattle.dagbench_lines.specs.Writing.{sink_of, written, IsSameSink};
ghost use Rattle.dagbench_engine.specs.Serving.{Serves};
ghost use Rattle.dagbench_engine.specs.Ends.{IsRun};

use crate::document::Documented;
use crate::mode::Mode;
use crate::session::Session;
use crate::stop::Stop;
use dagbench_lines::stream::{Sink, Source};
use dagbench_lines::writer::{Writer, room};
use daggy::{Dag, StableDag};
use std::alloc::Global;

/// How many bytes are read at once.
const BLOCK: usize = 0x1_0000;

/// Reads lines until the end of the source, and writes the answer to each. The answers to the lines
/// read so far are flushed before more is read.
///
/// The mode is the kind of the dag, and whether a plan of it is written at the end of the source:
/// each stage as a line and then the chain, or `memory` if an allocation fails.
pub fn serve<S: Source, K: Sink>(
    alloc: Global,
    mode: Mode,
    source: &mut S,
    sink: &mut K,
) -> Result<(), Stop>
    ensures end { OnOk result (S.is_ended source.new ≡ true) }
    ensures served { OnOk result (Serves (kind_of mode) (plans_of mode) lines_of
        (S.given source.old) (S.given source.new) (K.taken sink.old) (K.taken sink.new)) }

    // If the source knows its remaining bytes, it has given all of them.
    ensures whole { OnOk result (IfSome (S.remaining source.old)
        (λ input. S.given source.new ≡ S.given source.old ++ input)) }

    // A fault is reported if and only if its device failed.
    ensures read { (result ≡ Err Stop.Read) ↔ (S.failures source.old < S.failures source.new) }
    ensures write { (result ≡ Err Stop.Write) ↔ (K.failures sink.old < K.failures sink.new) }

    // After a read fault, each line that ended with a newline has its answer.
    ensures replied { result ≡ Err Stop.Read → Serves (kind_of mode) false ended_lines_of
        (S.given source.old) (S.given source.new) (K.taken sink.old) (K.taken sink.new) }
    ensures memory { result ≡ Err Stop.Memory → (source.new ≡ source.old) × (sink.new ≡ sink.old) }
{
    match mode {
        Mode::Compact => serve_with(alloc, Dag::new(alloc), false, source, sink),
        Mode::Stable => serve_with(alloc, StableDag::new(alloc), false, source, sink),
        Mode::PlanCompact => serve_with(alloc, Dag::new(alloc), true, source, sink),
        Mode::PlanStable => serve_with(alloc, StableDag::new(alloc), true, source, sink),
    }
}

/// Serves this empty dag, and writes a plan of it at the end if `plans`.
fn serve_with<D: Documented, S: Source, K: Sink>(
    alloc: Global,
    dag: D,
    plans: bool,
    source: &mut S,
    sink: &mut K,
) -> Result<(), Stop>
    requires { D.graph dag ≡ empty }
    ensures end { OnOk result (S.is_ended source.new ≡ true) }
    ensures served { OnOk result (Serves D.KIND plans lines_of
        (S.given source.old) (S.given source.new) (K.taken sink.old) (K.taken sink.new)) }

    // If the source knows its remaining bytes, it has given all of them.
    ensures whole { OnOk result (IfSome (S.remaining source.old)
        (λ input. S.given source.new ≡ S.given source.old ++ input)) }

    // A fault is reported if and only if its device failed.
    ensures read { (result ≡ Err Stop.Read) ↔ (S.failures source.old < S.failures source.new) }
    ensures write { (result ≡ Err Stop.Write) ↔ (K.failures sink.old < K.failures sink.new) }

    // After a read fault, each line that ended with a newline has its answer.
    ensures replied { result ≡ Err Stop.Read → Serves D.KIND false ended_lines_of
        (S.given source.old) (S.given source.new) (K.taken sink.old) (K.taken sink.new) }
    ensures memory { result ≡ Err Stop.Memory → (source.new ≡ source.old) × (sink.new ≡ sink.old) }
{
    let Ok(mut block) = vec![in alloc; 0u8; BLOCK] else {
        return Err(Stop::Memory);
    };
    let Ok(mut pending) = room(alloc) else {
        return Err(Stop::Memory);
    };
    let Ok(session) = Session::new(alloc, dag) else {
        return Err(Stop::Memory);
    };
    let mut writer = Writer::new(&mut pending, sink);
    run(session, plans, block.as_mut_slice(), source, &mut writer)
}

/// Runs a new session, reading block by block.
fn run<D: Documented, S: Source, K: Sink>(
    mut session: Session<D>,
    plans: bool,
    block: &mut [u8],
    source: &mut S,
    writer: &mut Writer<K>,
) -> Result<(), Stop>
    requires block_not_empty { 0 < length block.old }
    requires graph { D.graph session.dag ≡ empty }
    requires nothing { (session.line ≡ []) × (written K.taken writer.old ≡ K.taken (sink_of writer.old)) }
    ensures same_sink { IsSameSink writer.old writer.new }
    ensures run { IsRun D.KIND plans result
        (record {
          given = S.given source.old;
          remaining = S.remaining source.old;
          taken = K.taken (sink_of writer.old);
          failed_reads = S.failures source.old;
          failed_writes = K.failures (sink_of writer.old);
        })
        (record {
          given = S.given source.new;
          remaining = S.remaining source.new;
          taken = K.taken (sink_of writer.new);
          failed_reads = S.failures source.new;
          failed_writes = K.failures (sink_of writer.new);
        })
        (S.is_ended source.new) }
{
    'reads: loop {
        let Ok(()) = writer.flush() else {
            return Err(Stop::Write);
        };
        let Ok(count) = source.read(block) else {
            return Err(Stop::Read);
        };
        if count == 0 {
            break;
        }
        let Ok(()) = session.take_block(&block[..count], writer) else {
            return Err(Stop::Write);
        };
    }
    let Ok(()) = session.finish(plans, writer) else {
        return Err(Stop::Write);
    };
    Ok(())
}
