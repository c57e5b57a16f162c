//! The labels of the nodes and edges of a picture.
ghost use Rattle.std.specs.Prelude.{ℕ, List, [], Option, Some, None};
ghost use Rattle.std.specs.Fmt.{DisplaysOnOk};
ghost use Rattle.daggy_dot.specs.Escapes.{label_of};

use crate::escapes::write_label;
use std::fmt::{self, Display, Formatter, Write};

/// Makes the labels of nodes or of edges from their indices and weights.
///
/// To write labels of your own, implement it with [`write_label`], which takes any `Display` value,
/// such as a string or `format_args!`, and write other attributes with
/// [`write_attribute`](crate::write_attribute).
///
/// # Examples
///
/// ```
/// #[derive(Drop)]
/// struct Days;
///
/// impl Label<NodeIndex, u32> for Days {
///     fn write<W: fmt::Write>(
///         &self,
///         _n: NodeIndex,
///         days: &u32,
///         f: &mut fmt::Formatter<W>,
///     ) -> fmt::Result {
///         write_label(format_args!("{days} days"), f)?;
///         write_attribute("shape", "box", f)
///     }
/// }
///
/// let mut dag: Dag<u32, u32> = Dag::new(rt.alloc());
/// let _ = dag.add_node(60)?;
/// let dot = Dot::new(&dag).node_labels(Days).edge_labels(WeightLabels);
/// let picture = format!(in rt.alloc(); "{dot}")?;
/// let line = "0 [ label = \"60 days\" shape = \"box\" ]";
/// assert!(rt; picture.as_str().contains(line));
/// ```
pub trait Label<I, T> {
    // What is written, or `None` if nothing is said of it.
    ghost text: { Self → I → T → Option (List ℕ) } = { λ _ _ _. None };

    /// Writes the attributes, each with a space after it, as [`write_label`] writes a label.
    ///
    /// # Errors
    ///
    /// Returns an error if the formatter fails.
    ///
    /// # Complexity
    ///
    /// O(length of what is written).
    fn write<W: Write>(&self, index: I, weight: &T, f: &mut Formatter<W>) -> fmt::Result
        ensures { DisplaysOnOk W.write_str_gives f.old result (text self.now index weight.now)
            f.new };
}

/// The weights as labels, as `Display` writes them: the default of [`Dot::new`](crate::Dot::new).
#[derive(Clone, Copy, Debug)]
pub struct WeightLabels;

impl<I: Drop, T: Display> Label<I, T> for WeightLabels {
    ghost text = { λ _ _ weight. label_of (T.output weight) };

    fn write<W: Write>(&self, _index: I, weight: &T, f: &mut Formatter<W>) -> fmt::Result {
        write_label(weight, f)
    }
}

/// No labels: after `Dot::new(&dag).node_labels(NoLabels)` graphviz shows each node with its index.
///
/// # Examples
///
/// ```
/// let mut dag: Dag<&'static str, u32> = Dag::new(rt.alloc());
/// let sow = dag.add_node("sow")?;
/// let _ = dag.add_child(sow, 90, "reap")?;
/// let dot = Dot::new(&dag).node_labels(NoLabels);
/// let picture = format!(in rt.alloc(); "{dot}")?;
/// assert!(rt; !picture.as_str().contains("sow"));
/// ```
#[derive(Clone, Copy, Debug)]
pub struct NoLabels;

impl<I: Drop, T> Label<I, T> for NoLabels {
    ghost text = { λ _ _ _. Some [] };

    fn write<W: Write>(&self, _index: I, _weight: &T, _f: &mut Formatter<W>) -> fmt::Result {
        Ok(())
    }
}
