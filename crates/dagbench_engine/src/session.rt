//! What is kept between two blocks of input.
ghost use Rattle.std.specs.Prelude.{◌≡◌, ℕ, List, [], ◌∷◌, ◌++◌, IfOk, OnOk};
ghost use Rattle.dagbench_lines.specs.Cutting.{Lacks, newline, lines_of};
ghost use Rattle.dagbench_lines.specs.Writing.{sink_of, written, KeepsSink};
ghost use Rattle.dagbench_engine.specs.Serving.{Serves};
ghost use Rattle.dagbench_engine.specs.Progress.{GoesOn, IsServed, IsDone};

use crate::document::Documented;
use crate::engine::answer;
use crate::plan::put_trailer;
use dagbench_lines::line::Line;
use dagbench_lines::stream::{Fault, Sink};
use dagbench_lines::words::split_at_byte;
use dagbench_lines::writer::Writer;
use std::alloc::{AllocError, Global};

/// The dag, and the unfinished line.
#[derive(Drop)]
pub struct Session<D> {
    /// The graph.
    pub dag: D,
    /// The unfinished line.
    pub line: Line,
    alloc: Global,
}

impl<D: Documented> Session<D> {
    /// A session with this dag.
    pub fn new(alloc: Global, dag: D) -> Result<Session<D>, AllocError>
        ensures dag { IfOk result (λ session. session.dag ≡ dag) }
        ensures nothing { IfOk result (λ session. session.line ≡ []) }
    {
        let line = Line::new(alloc)?;
        Ok(Session { dag, line, alloc })
    }

    /// Answers the unfinished line, which ends with `rest`.
    fn end_line<K: Sink>(&mut self, rest: &[u8], writer: &mut Writer<K>) -> Result<(), Fault>
        ensures served { OnOk result
            (Lacks newline rest.now → GoesOn D.KIND (rest.now ++ newline ∷ [])
            (written K.taken writer.old) (written K.taken writer.new)
            (D.graph self.old.dag) (D.graph self.new.dag) self.old.line self.new.line) }
        ensures sink { KeepsSink K.failures result writer.old writer.new }
    {
        if self.line.is_empty() {
            return answer(self.alloc, &mut self.dag, rest, writer);
        }
        self.line.keep(rest);
        answer(self.alloc, &mut self.dag, self.line.as_slice(), writer)?;
        self.line.clear();
        Ok(())
    }

    /// Answers the lines that end in a block of input, and keeps the rest of the block.
    pub fn take_block<K: Sink>(&mut self, block: &[u8], writer: &mut Writer<K>) -> Result<(), Fault>
        ensures served { OnOk result (GoesOn D.KIND block.now
            (written K.taken writer.old) (written K.taken writer.new)
            (D.graph self.old.dag) (D.graph self.new.dag) self.old.line self.new.line) }
        ensures sink { KeepsSink K.failures result writer.old writer.new }
    {
        let mut rest = block;
        'lines: while let Some((line, behind)) = split_at_byte(b'\n', rest) {
            self.end_line(line, writer)?;
            rest = behind;
        }
        self.line.keep(rest);
        Ok(())
    }

    /// Answers the last line, if it has no newline.
    fn end_last_line<K: Sink>(&mut self, writer: &mut Writer<K>) -> Result<(), Fault>
        ensures done { OnOk result ((given_old given written_old : List ℕ)
            → IsServed D.KIND given_old given written_old (written K.taken writer.old)
            (D.graph self.old.dag) self.old.line
            → IsDone D.KIND given_old given written_old (written K.taken writer.new)
            (D.graph self.new.dag)) }
        ensures sink { KeepsSink K.failures result writer.old writer.new }
    {
        if self.line.is_empty() {
            return Ok(());
        }
        answer(self.alloc, &mut self.dag, self.line.as_slice(), writer)
    }

    /// Answers the last line if it has no newline, writes a plan if `plans`, and flushes the
    /// writer.
    pub fn finish<K: Sink>(&mut self, plans: bool, writer: &mut Writer<K>) -> Result<(), Fault>
        ensures served { OnOk result ((given_old given written_old : List ℕ)
            → IsServed D.KIND given_old given written_old (written K.taken writer.old)
            (D.graph self.old.dag) self.old.line
            → Serves D.KIND plans lines_of given_old given written_old (K.taken (sink_of writer.new))) }
        ensures sink { KeepsSink K.failures result writer.old writer.new }
    {
        self.end_last_line(writer)?;
        put_trailer(self.alloc, plans, &self.dag, writer)?;
        writer.flush()
    }
}
