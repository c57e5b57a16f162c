//! What the arguments ask for.
ghost use Rattle.std.specs.Prelude.{◌≡◌, map, string_bytes};
ghost use Rattle.dagbench_engine.specs.Arguments.{mode_by_words};

/// The kind of the dag, and whether a plan of it is written at the end.
#[derive(Clone, Copy, Debug, PartialEq, Eq)]
pub enum Mode {
    /// A removal moves the last node or edge into the freed index.
    Compact,
    /// A removal changes no other index.
    Stable,
    /// As `Compact`, with a plan at the end.
    PlanCompact,
    /// As `Stable`, with a plan at the end.
    PlanStable,
}

/// The mode that the arguments after the program's name ask for, or `None` if they are wrong.
pub fn mode_of(arguments: &[String]) -> Option<Mode>
    ensures { result ≡ mode_by_words (map string_bytes arguments.now) }
{
    match arguments {
        [word] if word.as_str() == "compact" => Some(Mode::Compact),
        [word] if word.as_str() == "stable" => Some(Mode::Stable),
        [word, kind] if word.as_str() == "plan" && kind.as_str() == "compact" => {
            Some(Mode::PlanCompact)
        }
        [word, kind] if word.as_str() == "plan" && kind.as_str() == "stable" => {
            Some(Mode::PlanStable)
        }
        _ => None,
    }
}
