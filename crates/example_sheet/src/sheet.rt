//! Cells that are recalculated when a formula changes.
ghost use Rattle.std.specs.Prelude.{ℕ, OnOk};
ghost use Rattle.daggy.specs.Marking.{IsStale};

use crate::line::{BadLine, Line};
use anyhow::Result;
use daggy::computed::{ComputedDag, Inputs, RefreshError};
use daggy::{NodeIndex, ParentsError, TryParentsError};
use indexmap::IndexMap;
use std::alloc::{AllocError, Global};

/// The value of a cell.
#[derive(Clone, Copy, Debug, PartialEq)]
enum Value {
    NotSet,
    Number(i64),
    TooLarge,
}

/// The value of a cell: the sum of its numbers, if it has a formula, and of the cells that it needs. It
/// never fails.
fn total(numbers: &Option<i128>, needed: Inputs<'_, Value>) -> Result<Value, ()> {
    let Some(mut sum) = *numbers else {
        return Ok(Value::NotSet);
    };
    for value in needed {
        match value {
            Value::NotSet => {}
            Value::Number(number) => sum = sum.saturating_add(i128::from(*number)),
            Value::TooLarge => return Ok(Value::TooLarge),
        }
    }
    Ok(i64::try_from(sum).map_or(Value::TooLarge, Value::Number))
}

/// A sheet. A cell is a node, and an edge leads from a cell to each cell that needs it. The formula of a
/// node is the sum of the numbers in its line, or `None` before there is one.
#[derive(Drop)]
pub struct Sheet {
    alloc: Global,
    cells: ComputedDag<Option<i128>, Value, ()>,
    // In the order of the nodes.
    by_name: IndexMap<String, NodeIndex>,
}

impl Sheet {
    /// A sheet without cells.
    pub fn new(alloc: Global) -> Sheet {
        Sheet {
            alloc,
            cells: ComputedDag::new(alloc),
            by_name: IndexMap::new(alloc),
        }
    }

    /// The cell of that name. Adds it, without a formula, if there is none.
    fn cell(&mut self, name: &str) -> Result<NodeIndex> {
        if let Some(cell) = self.by_name.get(name) {
            return Ok(*cell);
        }
        let cell = self.cells.try_add(None)?;
        self.by_name
            .insert(String::from_str(self.alloc, name)?, cell)?;
        Ok(cell)
    }

    /// The name of a cell.
    fn name(&self, n: NodeIndex) -> &str {
        self.by_name
            .get_index(n.index())
            .map_or("", |(name, _)| name.as_str())
    }

    /// Replaces the formula of the line's cell, with the edges that enter it.
    ///
    /// Returns `BadLine::Cycle` if the cell would need itself; no formula and no edge has changed.
    pub fn set(&mut self, line: Line<'_>) -> Result<(), BadLine> {
        let cell = self.cell(line.name)?;
        let mut needed = Vec::new(self.alloc);
        for name in line.names {
            needed.push((self.cell(name)?, ()))?;
        }
        match self.cells.try_set_parents(cell, Some(line.sum), needed) {
            Ok(_) => Ok(()),
            Err((_, TryParentsError::Refused(ParentsError::WouldCycle(refused)))) => {
                Err(BadLine::Cycle(self.cycle(cell, refused.0.as_slice())?))
            }
            Err((_, other)) => Err(BadLine::Failed(other.into())),
        }
    }

    /// The cycle that a cell would close by what it needs, as `a needs b needs a`.
    fn cycle(&mut self, cell: NodeIndex, needed: &[(NodeIndex, ())]) -> Result<String> {
        let mut text = String::from_str(self.alloc, self.name(cell))?;
        for (source, _) in needed {
            if let Some(path) = self.cells.path(cell, *source)? {
                for n in path.as_slice().iter().rev() {
                    write!(text, " needs {}", self.name(*n))?;
                }
                break;
            }
        }
        Ok(text)
    }

    /// Recalculates each cell that changed, and those that need it, as far as values change.
    fn refresh(&mut self) -> Result<(), RefreshError<()>>
        ensures fresh { OnOk result ((n : ℕ) → ¬ IsStale self.new.cells.graph n) }
    {
        self.cells.refresh(total)
    }

    /// Recalculates, and prints what changed.
    pub fn recalculate(&mut self, rt: &impl Print) -> Result<()> {
        self.refresh().or(Err(AllocError))?;
        for n in self.cells.changed() {
            let name = self.name(*n);
            match self.cells.last_value(*n) {
                Some(Value::Number(number)) => println!(rt; "{name} = {number}")?,
                Some(Value::TooLarge) => println!(rt; "{name}: too large")?,
                _ => {}
            }
        }
        Ok(())
    }
}
