//! Dags that are written as documents and read.
use crate::builds::sorted;
use crate::figures::{Figures, median, since};
use crate::graph::{Kind, mixed};
use crate::inputs::Sizes;
use serde_json::Value;
use std::io;
use std::rt::CpuClock;

// A number of the edges that a document has.
fn edges_sum(document: &Value) -> u64 {
    let mut sum = 0u64;
    if let Some(Value::Array(edges)) = document.get("edges") {
        for edge in edges {
            let child = edge.get(1usize).and_then(Value::as_u64);
            sum = mixed(sum, child.unwrap_or(0));
        }
    }
    sum
}

// A number of the bytes of a text.
fn bytes_sum(text: &[u8]) -> u64 {
    let mut sum = 0u64;
    for byte in text {
        sum = mixed(sum, u64::from(*byte));
    }
    sum
}

/// Writing a dag.
pub fn json_write<G: Kind, R: AllocGlobal + CpuClock>(rt: &R, sizes: Sizes) -> io::Result<Figures> {
    let dag = sorted::<G>(rt.alloc(), sizes)?;
    median(rt.alloc(), sizes.reps, || {
        let start = rt.process_cpu_time()?;
        let document = dag.document(rt.alloc())?;
        let time = since(rt, start)?;
        let check = edges_sum(&document);
        Ok(Figures { time, check })
    })
}

/// Writing the text of a document.
pub fn json_stream<G: Kind, R: AllocGlobal + CpuClock>(
    rt: &R,
    sizes: Sizes,
) -> io::Result<Figures> {
    let dag = sorted::<G>(rt.alloc(), sizes)?;
    median(rt.alloc(), sizes.reps, || {
        let mut text = Vec::new(rt.alloc());
        let start = rt.process_cpu_time()?;
        dag.write_document(&mut text)?;
        let time = since(rt, start)?;
        let check = bytes_sum(text.as_slice());
        Ok(Figures { time, check })
    })
}

/// Writing the text without the orders.
pub fn json_short<G: Kind, R: AllocGlobal + CpuClock>(rt: &R, sizes: Sizes) -> io::Result<Figures> {
    let dag = sorted::<G>(rt.alloc(), sizes)?;
    median(rt.alloc(), sizes.reps, || {
        let mut text = Vec::new(rt.alloc());
        let start = rt.process_cpu_time()?;
        dag.write_short_document(&mut text)?;
        let time = since(rt, start)?;
        let check = bytes_sum(text.as_slice());
        Ok(Figures { time, check })
    })
}

/// Reading the document of a dag.
pub fn json_read<G: Kind, R: AllocGlobal + CpuClock>(rt: &R, sizes: Sizes) -> io::Result<Figures> {
    let dag = sorted::<G>(rt.alloc(), sizes)?;
    let document = dag.document(rt.alloc())?;
    median(rt.alloc(), sizes.reps, || {
        let start = rt.process_cpu_time()?;
        let other = G::of_document(rt.alloc(), &document)?;
        let time = since(rt, start)?;
        let check = other.edge_sum();
        Ok(Figures { time, check })
    })
}
