//! The formats.
ghost use Rattle.std.specs.Prelude.{ℕ, List, [], codes, Option, Some, None};
ghost use Rattle.std.specs.Fmt.{DisplaysOnOk, WritesOnOk};
ghost use Rattle.daggy_formats.specs.Escapes.{mermaid_char, csv_char, xml_char};
ghost use Rattle.daggy_formats.specs.Document.{mermaid_node, mermaid_edge, node_row, edge_row};
ghost use Rattle.daggy_formats.specs.Document.{node_tags, node_end_tags, node_element};
ghost use Rattle.daggy_formats.specs.Document.{edge_tags, edge_end_tags, edge_element};

use crate::escaper::{Escape, write_escaped};
use std::fmt::{self, Display, Formatter, Write};

/// How a graph is written: a header, a line for each node and each edge, and a footer.
///
/// # Examples
///
/// ```
/// struct Lines;
///
/// impl Format for Lines {
///     fn write_header<W: fmt::Write>(_f: &mut fmt::Formatter<W>) -> fmt::Result {
///         Ok(())
///     }
///
///     fn write_node<N: fmt::Display, W: fmt::Write>(
///         n: usize,
///         weight: &N,
///         f: &mut fmt::Formatter<W>,
///     ) -> fmt::Result {
///         writeln!(f, "{n}: {weight}")
///     }
///
///     fn write_edge<E: fmt::Display, W: fmt::Write>(
///         a: usize,
///         b: usize,
///         weight: &E,
///         f: &mut fmt::Formatter<W>,
///     ) -> fmt::Result {
///         writeln!(f, "{a} to {b}: {weight}")
///     }
///
///     fn write_footer<W: fmt::Write>(_f: &mut fmt::Formatter<W>) -> fmt::Result {
///         Ok(())
///     }
/// }
///
/// let mut dag: Dag<&'static str, u32> = Dag::new(rt.alloc());
/// let sow = dag.add_node("sow")?;
/// dag.add_child(sow, 90, "reap")?;
/// let document: Document<'_, Lines, &'static str, u32, u32, DiGraph<&'static str, u32>> =
///     Document::new(dag.graph());
/// let text = format!(in rt.alloc(); "{document}")?;
/// assert_eq!(rt; text.as_str(), "0: sow\n1: reap\n0 to 1: 90\n");
/// ```
pub trait Format {
    ghost header: { List ℕ } = { [] };
    // The line of a node, by its index and what its weight displays, if it displays anything.
    ghost node_line: { ℕ → Option (List ℕ) → Option (List ℕ) } = { λ _ _. None };
    // The line of an edge, by the indices of its parent and its child and by its weight.
    ghost edge_line: { ℕ → ℕ → Option (List ℕ) → Option (List ℕ) } = { λ _ _ _. None };

    ghost footer: { List ℕ } = { [] };

    /// Writes the text before the nodes.
    ///
    /// # Errors
    ///
    /// Returns an error if the formatter fails.
    fn write_header<W: Write>(f: &mut Formatter<W>) -> fmt::Result
        ensures { WritesOnOk W.write_str_gives f.old result header f.new };

    /// Writes a node.
    ///
    /// # Errors
    ///
    /// Returns an error if the weight or the formatter fails.
    ///
    /// # Complexity
    ///
    /// O(length of the weight's text).
    fn write_node<N: Display, W: Write>(n: usize, weight: &N, f: &mut Formatter<W>) -> fmt::Result
        ensures { DisplaysOnOk W.write_str_gives f.old result (node_line n (N.output weight.now))
            f.new };

    /// Writes an edge from `a` to `b`.
    ///
    /// # Errors
    ///
    /// Returns an error if the weight or the formatter fails.
    ///
    /// # Complexity
    ///
    /// O(length of the weight's text).
    fn write_edge<E: Display, W: Write>(
        a: usize,
        b: usize,
        weight: &E,
        f: &mut Formatter<W>,
    ) -> fmt::Result
        ensures { DisplaysOnOk W.write_str_gives f.old result (edge_line a b (E.output weight.now))
            f.new };

    /// Writes the text after the edges.
    ///
    /// # Errors
    ///
    /// Returns an error if the formatter fails.
    fn write_footer<W: Write>(f: &mut Formatter<W>) -> fmt::Result
        ensures { WritesOnOk W.write_str_gives f.old result footer f.new };
}

/// A Mermaid flowchart. Many code hosts and wikis draw a fenced code block with such text as a
/// picture:
///
///     flowchart TD
///         0["sow"]
///         1["reap"]
///         0 -->|"90"| 1
///
/// [`mermaid`](crate::mermaid) writes it.
#[derive(Clone, Copy, Debug)]
pub struct Mermaid;

impl Escape for Mermaid {
    ghost escaped_char = { mermaid_char };

    fn write_char<W: Write>(c: char, f: &mut Formatter<W>) -> fmt::Result {
        match c {
            '"' => f.write_str("#quot;"),
            '#' => f.write_str("#35;"),
            '\n' => f.write_str("<br>"),
            '&' => f.write_str("&amp;"),
            '<' => f.write_str("&lt;"),
            _ => f.write_char(c),
        }
    }
}

impl Format for Mermaid {
    ghost header = { codes "flowchart TD\n" };

    ghost node_line = { mermaid_node };

    ghost edge_line = { mermaid_edge };

    ghost footer = { [] };

    fn write_header<W: Write>(f: &mut Formatter<W>) -> fmt::Result {
        f.write_str("flowchart TD\n")
    }

    fn write_node<N: Display, W: Write>(n: usize, weight: &N, f: &mut Formatter<W>) -> fmt::Result {
        write!(f, "    {n}[\"")?;
        write_escaped::<Mermaid, _, _>(weight, f)?;
        f.write_str("\"]\n")
    }

    fn write_edge<E: Display, W: Write>(
        a: usize,
        b: usize,
        weight: &E,
        f: &mut Formatter<W>,
    ) -> fmt::Result {
        write!(f, "    {a} -->|\"")?;
        write_escaped::<Mermaid, _, _>(weight, f)?;
        write!(f, "\"| {b}\n")
    }

    fn write_footer<W: Write>(_f: &mut Formatter<W>) -> fmt::Result {
        Ok(())
    }
}

/// The nodes as a table of comma-separated values, which databases and spreadsheets read:
///
///     node,weight
///     0,"sow"
///     1,"reap"
///
/// [`node_table`](crate::node_table) writes it.
#[derive(Clone, Copy, Debug)]
pub struct NodeTable;

/// The edges as a table of comma-separated values:
///
///     parent,child,weight
///     0,1,"90"
///
/// [`edge_table`](crate::edge_table) writes it.
#[derive(Clone, Copy, Debug)]
pub struct EdgeTable;

impl Escape for NodeTable {
    ghost escaped_char = { csv_char };

    fn write_char<W: Write>(c: char, f: &mut Formatter<W>) -> fmt::Result {
        match c {
            '"' => f.write_str("\"\""),
            _ => f.write_char(c),
        }
    }
}

impl Format for NodeTable {
    ghost header = { codes "node,weight\n" };

    ghost node_line = { node_row };

    ghost edge_line = { λ _ _ _. Some [] };

    ghost footer = { [] };

    fn write_header<W: Write>(f: &mut Formatter<W>) -> fmt::Result {
        f.write_str("node,weight\n")
    }

    fn write_node<N: Display, W: Write>(n: usize, weight: &N, f: &mut Formatter<W>) -> fmt::Result {
        write!(f, "{n},\"")?;
        write_escaped::<NodeTable, _, _>(weight, f)?;
        f.write_str("\"\n")
    }

    fn write_edge<E: Display, W: Write>(
        _a: usize,
        _b: usize,
        _weight: &E,
        _f: &mut Formatter<W>,
    ) -> fmt::Result {
        Ok(())
    }

    fn write_footer<W: Write>(_f: &mut Formatter<W>) -> fmt::Result {
        Ok(())
    }
}

impl Format for EdgeTable {
    ghost header = { codes "parent,child,weight\n" };

    ghost node_line = { λ _ _. Some [] };

    ghost edge_line = { edge_row };

    ghost footer = { [] };

    fn write_header<W: Write>(f: &mut Formatter<W>) -> fmt::Result {
        f.write_str("parent,child,weight\n")
    }

    fn write_node<N: Display, W: Write>(
        _n: usize,
        _weight: &N,
        _f: &mut Formatter<W>,
    ) -> fmt::Result {
        Ok(())
    }

    fn write_edge<E: Display, W: Write>(
        a: usize,
        b: usize,
        weight: &E,
        f: &mut Formatter<W>,
    ) -> fmt::Result {
        write!(f, "{a},{b},\"")?;
        write_escaped::<NodeTable, _, _>(weight, f)?;
        f.write_str("\"\n")
    }

    fn write_footer<W: Write>(_f: &mut Formatter<W>) -> fmt::Result {
        Ok(())
    }
}

/// GraphML, which networkx reads. A node's identifier is `n` followed by its index, and weights are
/// written as strings. A character that XML does not allow, such as a control character, is written
/// as U+FFFD.
///
/// # Examples
///
/// ```
/// let mut dag: Dag<&'static str, u32> = Dag::new(rt.alloc());
/// let sow = dag.add_node("sow")?;
/// dag.add_child(sow, 90, "reap")?;
/// let document: Document<'_, GraphMl, &'static str, u32, u32, DiGraph<&'static str, u32>> =
///     graphml(dag.graph());
/// let text = format!(in rt.alloc(); "{document}")?;
/// assert!(rt; text.as_str().contains("source=\"n0\" target=\"n1\""));
/// ```
#[derive(Clone, Copy, Debug)]
pub struct GraphMl;

impl Escape for GraphMl {
    ghost escaped_char = { xml_char };

    fn write_char<W: Write>(c: char, f: &mut Formatter<W>) -> fmt::Result {
        match c {
            '&' => f.write_str("&amp;"),
            '<' => f.write_str("&lt;"),
            '>' => f.write_str("&gt;"),
            '\r' => f.write_str("&#13;"),
            '\0'..='\x08' | '\x0b' | '\x0c' | '\x0e'..='\x1f' | '\u{fffe}' | '\u{ffff}' => {
                f.write_char('\u{fffd}')
            }
            _ => f.write_char(c),
        }
    }
}

// Writes the tags before the weight of a node.
#[tactic(auto, unfolding(crate::specs::Document::node_tags))]
fn write_node_tags<W: Write>(n: usize, f: &mut Formatter<W>) -> fmt::Result
    ensures { WritesOnOk W.write_str_gives f.old result (node_tags n) f.new }
{
    write!(f, "    <node id=\"n{n}\"><data key=\"weight\">")
}

// Writes the tags after the weight of a node.
#[tactic(auto, unfolding(crate::specs::Document::node_end_tags))]
fn write_node_end_tags<W: Write>(f: &mut Formatter<W>) -> fmt::Result
    ensures { WritesOnOk W.write_str_gives f.old result node_end_tags f.new }
{
    f.write_str("</data></node>\n")
}

// Writes the tags before the weight of an edge.
#[tactic(auto, unfolding(crate::specs::Document::edge_tags))]
fn write_edge_tags<W: Write>(a: usize, b: usize, f: &mut Formatter<W>) -> fmt::Result
    ensures { WritesOnOk W.write_str_gives f.old result (edge_tags a b) f.new }
{
    write!(
        f,
        "    <edge source=\"n{a}\" target=\"n{b}\"><data key=\"weight\">"
    )
}

// Writes the tags after the weight of an edge.
#[tactic(auto, unfolding(crate::specs::Document::edge_end_tags))]
fn write_edge_end_tags<W: Write>(f: &mut Formatter<W>) -> fmt::Result
    ensures { WritesOnOk W.write_str_gives f.old result edge_end_tags f.new }
{
    f.write_str("</data></edge>\n")
}

impl Format for GraphMl {
    ghost use Rattle.daggy_formats.specs.Document.{graphml_header, graphml_footer};

    ghost header = { graphml_header };

    ghost node_line = { node_element };

    ghost edge_line = { edge_element };

    ghost footer = { graphml_footer };

    fn write_header<W: Write>(f: &mut Formatter<W>) -> fmt::Result {
        f.write_str("<?xml version=\"1.0\" encoding=\"UTF-8\"?>\n")?;
        f.write_str("<graphml xmlns=\"http://graphml.graphdrawing.org/xmlns\">\n")?;
        f.write_str(
            "  <key id=\"weight\" for=\"all\" attr.name=\"weight\" attr.type=\"string\"/>\n",
        )?;
        f.write_str("  <graph edgedefault=\"directed\">\n")
    }

    fn write_node<N: Display, W: Write>(n: usize, weight: &N, f: &mut Formatter<W>) -> fmt::Result {
        write_node_tags(n, f)?;
        write_escaped::<GraphMl, _, _>(weight, f)?;
        write_node_end_tags(f)
    }

    fn write_edge<E: Display, W: Write>(
        a: usize,
        b: usize,
        weight: &E,
        f: &mut Formatter<W>,
    ) -> fmt::Result {
        write_edge_tags(a, b, f)?;
        write_escaped::<GraphMl, _, _>(weight, f)?;
        write_edge_end_tags(f)
    }

    fn write_footer<W: Write>(f: &mut Formatter<W>) -> fmt::Result {
        f.write_str("  </graph>\n</graphml>\n")
    }
}
