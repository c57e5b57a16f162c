//! The text of a document.
use super::Model;
use super::wholes::permute;
use crate::random::mixed;
use std::alloc::AllocError;
use std::fmt::Write;

impl Model {
    /// The document, as the library is to write it.
    pub fn document(&self) -> Result<String, AllocError> {
        let mut text = self.document_of_slots()?;
        text.pop();
        self.write_orders(&mut text, None)?;
        Ok(text)
    }

    /// A document whose lists are permuted.
    pub fn permuted_document(&self, salt: u64) -> Result<String, AllocError> {
        let mut text = self.document_of_slots()?;
        text.pop();
        self.write_orders(&mut text, Some(salt))?;
        Ok(text)
    }

    /// A document without lists.
    pub fn document_of_slots(&self) -> Result<String, AllocError> {
        let mut text = String::new(self.alloc);
        text.push_str("{\"edge_property\":\"directed\",\"edges\":[")?;
        for e in 0..self.edge_bound() {
            text.push_str(comma(e))?;
            match self.edge(e) {
                Some(edge) => {
                    let (a, b, weight) = (edge.parent, edge.child, edge.weight);
                    write!(text, "[{a},{b},{weight}]")?;
                }
                None => text.push_str("null")?,
            }
        }
        text.push_str("],\"node_holes\":[")?;
        self.write_holes(&mut text)?;
        text.push_str("],\"nodes\":[")?;
        for (i, n) in self.existing()?.iter().enumerate() {
            text.push_str(comma(i))?;
            let weight = self.node(*n).unwrap_or(0);
            write!(text, "{weight}")?;
        }
        text.push_str("]}")?;
        Ok(text)
    }

    fn write_orders(&self, text: &mut String, salt: Option<u64>) -> Result<(), AllocError> {
        text.push_str(",\"orders\":[")?;
        for (i, n) in self.existing()?.iter().enumerate() {
            text.push_str(comma(i))?;
            text.push_str("[")?;
            self.write_list(text, self.children_of(*n), *n, 1, salt)?;
            text.push_str(",")?;
            self.write_list(text, self.parents_of(*n), *n, 2, salt)?;
            text.push_str("]")?;
        }
        text.push_str("]}")
    }

    fn write_holes(&self, text: &mut String) -> Result<(), AllocError> {
        let mut written = 0usize;
        for n in 0..self.node_bound() {
            if !self.has_node(n) {
                text.push_str(comma(written))?;
                write!(text, "{n}")?;
                written = written.saturating_add(1);
            }
        }
        Ok(())
    }

    fn write_list(
        &self,
        text: &mut String,
        edges: &[usize],
        n: usize,
        which: u64,
        salt: Option<u64>,
    ) -> Result<(), AllocError> {
        let mut edges = Vec::from_slice(self.alloc, edges)?;
        if let Some(salt) = salt {
            permute(&mut edges, mixed(n as u64, which, salt));
        }
        text.push_str("[")?;
        for (i, e) in edges.iter().enumerate() {
            text.push_str(comma(i))?;
            write!(text, "{e}")?;
        }
        text.push_str("]")
    }
}

// What stands before the item at a position.
fn comma(i: usize) -> &'static str {
    if i == 0 { "" } else { "," }
}
