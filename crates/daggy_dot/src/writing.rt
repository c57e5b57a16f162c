//! The lines of a picture.
ghost use Rattle.std.specs.Prelude.{◌≡◌};
ghost use Rattle.std.specs.Option.{option_map};
ghost use Rattle.std.specs.Fmt.{DisplaysOnOk, WritesOnOk};
ghost use Rattle.daggy_dot.specs.Picture.{direction_line, title_line, rank_rule};
ghost use Rattle.daggy_dot.specs.Picture.{end_of_line, node_line, edge_line};

use crate::direction::RankDir;
use crate::escapes::write_quoted;
use crate::labels::Label;
use daggy_base::index::{EdgeIndex, IndexType, NodeIndex};
use std::fmt::{self, Formatter, Write};

// Writes the line of a direction.
pub(crate) fn write_direction<W: Write>(direction: RankDir, f: &mut Formatter<W>) -> fmt::Result
    ensures { WritesOnOk W.write_str_gives f.old result (direction_line direction) f.new }
{
    match direction {
        RankDir::TopToBottom => Ok(()),
        RankDir::BottomToTop => f.write_str("    rankdir = BT\n"),
        RankDir::LeftToRight => f.write_str("    rankdir = LR\n"),
        RankDir::RightToLeft => f.write_str("    rankdir = RL\n"),
    }
}

// Writes the line that lets nodes of different boxes share a rank.
pub(crate) fn write_rank_rule<W: Write>(has_clusters: bool, f: &mut Formatter<W>) -> fmt::Result
    ensures { WritesOnOk W.write_str_gives f.old result (rank_rule has_clusters) f.new }
{
    if has_clusters {
        f.write_str("    newrank = true\n")?;
    }
    Ok(())
}

// Writes the line of a title.
pub(crate) fn write_title<W: Write>(title: Option<&str>, f: &mut Formatter<W>) -> fmt::Result
    ensures { WritesOnOk W.write_str_gives f.old result
        (title_line (option_map (λ t. t.now) title.entry)) f.new }
{
    if let Some(title) = title {
        f.write_str("    labelloc = t label = \"")?;
        write_quoted(title, f)?;
        f.write_str("\"\n")?;
    }
    Ok(())
}

// Writes the end of the line of a node or of an edge.
fn write_end<W: Write>(is_bold: bool, f: &mut Formatter<W>) -> fmt::Result
    ensures { WritesOnOk W.write_str_gives f.old result (end_of_line is_bold) f.new }
{
    f.write_str(if is_bold { "style = bold ]\n" } else { "]\n" })
}

// Writes the line of a node.
pub(crate) fn write_node<N, Ix: IndexType, L: Label<NodeIndex<Ix>, N>, W: Write>(
    n: NodeIndex<Ix>,
    weight: &N,
    labels: &L,
    is_bold: bool,
    f: &mut Formatter<W>,
) -> fmt::Result
    ensures { DisplaysOnOk W.write_str_gives f.old result
        (node_line (Ix.number n) (L.text labels.now n weight.now) is_bold) f.new }
{
    let x = n.index();
    write!(f, "    {x} [ ")?;
    labels.write(n, weight, f)?;
    write_end(is_bold, f)
}

// Writes the line of an edge.
pub(crate) fn write_edge<E, Ix: IndexType, M: Label<EdgeIndex<Ix>, E>, W: Write>(
    edge: (EdgeIndex<Ix>, NodeIndex<Ix>, NodeIndex<Ix>),
    weight: &E,
    labels: &M,
    is_bold: bool,
    f: &mut Formatter<W>,
) -> fmt::Result
    ensures { DisplaysOnOk W.write_str_gives f.old result
        (edge_line (Ix.number edge.1) (Ix.number edge.2) (M.text labels.now edge.0 weight.now)
        is_bold) f.new }
{
    let (e, a, b) = (edge.0, edge.1.index(), edge.2.index());
    write!(f, "    {a} -> {b} [ ")?;
    labels.write(e, weight, f)?;
    write_end(is_bold, f)
}
