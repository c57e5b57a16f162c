//! Packages that need each other, as groups, and in which order these can be installed.
use crate::needs::Needs;
use anyhow::Result;
use daggy::dot::{Dot, Label, write_label};
use daggy::run::plan;
use daggy::schedule::Schedule;
use daggy::{Dag, EdgeIndex, NodeIndex};
use std::alloc::{AllocError, Global};
use std::fmt::{self, Display, Formatter, Write};
use std::io;

/// A dag of groups of packages. The packages of a group need each other, and an edge leads from a
/// group to each that needs one of its packages.
#[derive(Drop)]
pub struct Groups<'a> {
    alloc: Global,
    needs: &'a Needs,
    dag: Dag<Vec<NodeIndex>, EdgeIndex>,
}

/// The names of the packages of a group.
#[derive(Clone, Copy)]
struct Names<'a> {
    needs: &'a Needs,
    packages: &'a [NodeIndex],
}

impl Display for Names<'_> {
    fn fmt<W: Write>(&self, f: &mut Formatter<W>) -> fmt::Result {
        for (i, n) in self.packages.iter().enumerate() {
            write!(
                f,
                "{}{}",
                if i == 0 { "" } else { " " },
                self.needs.name(*n)
            )?;
        }
        Ok(())
    }
}

/// The names of packages, and how much they take, as labels.
#[derive(Drop)]
struct Labels<'a> {
    needs: &'a Needs,
}

impl Label<NodeIndex, Vec<NodeIndex>> for Labels<'_> {
    fn write<W: Write>(
        &self,
        _group: NodeIndex,
        packages: &Vec<NodeIndex>,
        f: &mut Formatter<W>,
    ) -> fmt::Result {
        let needs = self.needs;
        let packages = packages.as_slice();
        let size = needs.size(packages);
        write_label(format_args!("{}\n{size} kB", Names { needs, packages }), f)
    }
}

impl<'a> Groups<'a> {
    pub fn of(alloc: Global, needs: &'a Needs, dag: Dag<Vec<NodeIndex>, EdgeIndex>) -> Groups<'a> {
        Groups { alloc, needs, dag }
    }

    fn packages(&self, group: NodeIndex) -> &[NodeIndex] {
        self.dag.node_weight(group).map_or(&[], Vec::as_slice)
    }

    /// Keeps only the groups of these packages, and those that they need.
    pub fn keep(&mut self, packages: &[NodeIndex]) -> Result<()> {
        let mut groups = self.groups_of(packages)?;
        let needed = self.dag.ancestors(groups.as_slice())?;
        groups.extend_from_slice(needed.as_slice())?;
        let mut kept = vec![in self.alloc; false; self.dag.node_count()]?;
        for group in groups.as_slice() {
            if let Some(keeps) = kept.get_mut(group.index()) {
                *keeps = true;
            }
        }
        let kept = kept.as_slice();
        self.dag
            .retain_nodes(|group, _| kept.get(group.index()) == Some(&true));
        Ok(())
    }

    /// The groups that have one of these packages.
    fn groups_of(&self, packages: &[NodeIndex]) -> Result<Vec<NodeIndex>, AllocError> {
        let mut groups = Vec::new(self.alloc);
        for group in self.dag.node_indices() {
            if self.packages(group).iter().any(|n| packages.contains(n)) {
                groups.push(group)?;
            }
        }
        Ok(groups)
    }

    /// Removes each edge whose ends a longer path joins.
    pub fn reduce(&mut self) -> Result<()> {
        Ok(self.dag.transitive_reduce_all()?)
    }

    fn schedule(&self) -> Result<Schedule> {
        Ok(Schedule::new(self.alloc, &self.dag, |_, packages| {
            self.needs.size(packages.as_slice())
        })?)
    }

    /// Reports the packages that need each other, and for each group of them a shortest cycle.
    pub fn report(&self, rt: &impl Eprint) -> Result<()> {
        for group in self.dag.node_indices() {
            let packages = self.packages(group);
            if let [first, _, ..] = packages {
                let names = Names {
                    needs: self.needs,
                    packages,
                };
                eprintln!(rt; "{} need each other: {names}", packages.len())?;
                self.needs.report_cycle(rt, *first)?;
            }
        }
        Ok(())
    }

    /// Prints the stages, and the critical path.
    pub fn print(&self, rt: &impl Print) -> Result<()> {
        let plan = plan(self.alloc, &self.dag)?;
        for (i, stage) in plan.stages.as_slice().iter().enumerate() {
            print!(rt; "stage {i}:")?;
            self.print_groups(rt, self.sorted(stage.as_slice())?.as_slice())?;
        }
        let schedule = self.schedule()?;
        print!(rt; "{} kB in turn:", schedule.makespan)?;
        self.print_groups(rt, schedule.critical.as_slice())?;
        Ok(())
    }

    /// Groups in the order in which the packages were read.
    fn sorted(&self, groups: &[NodeIndex]) -> Result<Vec<NodeIndex>, AllocError> {
        let mut sorted = Vec::new(self.alloc);
        sorted.extend_from_slice(groups)?;
        sorted.sort_unstable_by_key(|group| {
            self.packages(*group).first().map_or(0, |n| n.index())
        });
        Ok(sorted)
    }

    /// Prints the names of the packages of each group, several in braces, and a newline.
    fn print_groups(&self, rt: &impl Print, groups: &[NodeIndex]) -> io::Result<()> {
        for group in groups {
            let packages = self.packages(*group);
            let names = Names {
                needs: self.needs,
                packages,
            };
            if packages.len() == 1 {
                print!(rt; " {names}")?;
            } else {
                print!(rt; " {{{names}}}")?;
            }
        }
        println!(rt; "")
    }

    /// Prints a picture, with a rank for each stage and the critical path in bold.
    pub fn draw(&self, rt: &impl Print) -> Result<()> {
        let plan = plan(self.alloc, &self.dag)?;
        let schedule = self.schedule()?;
        let picture = Dot::new(&self.dag)
            .node_labels(Labels { needs: self.needs })
            .no_edge_labels()
            .ranks(plan.stages.as_slice())
            .bold(self.alloc, schedule.critical.as_slice())?;
        print!(rt; "{picture}")?;
        Ok(())
    }
}
