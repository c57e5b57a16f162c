//! Which package needs which.
use crate::groups::Groups;
use crate::status::{Need, Package};
use anyhow::{Result, bail};
use daggy::NodeIndex;
use daggy::components::{condensed_dag, shortest_cycle, strongly_connected_components};
use daggy::graph::DiGraph;
use daggy::search::Reading;
use std::alloc::{AllocError, Global};
use std::collections::{HashMap, HashSet};

/// An installed package.
#[derive(Debug, Drop)]
pub struct Installed {
    pub name: String,
    /// The number of the line that has its name.
    line: u64,
    /// How much it takes, in kB.
    pub size: u64,
}

/// The installed packages. An edge leads from a package to each that needs it.
#[derive(Drop)]
pub struct Needs {
    alloc: Global,
    graph: DiGraph<Installed, ()>,
    indices: HashMap<String, NodeIndex>,
    // The package that provides a name. If there are several, the last one.
    providers: HashMap<String, NodeIndex>,
}

impl Needs {
    /// What the installed packages of a list need. What cannot be met is reported, and so is each
    /// package of a name that another has before it, which is left out; `bad` counts these.
    pub fn of(
        rt: &(impl Eprint + AllocGlobal),
        packages: &[Package],
        bad: &mut u64,
    ) -> Result<Needs> {
        let mut needs = Needs {
            alloc: rt.alloc(),
            graph: DiGraph::new(rt.alloc()),
            indices: HashMap::new(rt.alloc()),
            providers: HashMap::new(rt.alloc()),
        };
        needs.fill(rt, packages, bad)?;
        Ok(needs)
    }

    fn fill(
        &mut self,
        rt: &(impl Eprint + AllocGlobal),
        packages: &[Package],
        bad: &mut u64,
    ) -> Result<()> {
        for package in packages {
            if package.installed && !self.add(rt, package)? {
                *bad = bad.saturating_add(1);
            }
        }
        for package in packages {
            if package.installed {
                self.depend_all(rt, package)?;
            }
        }
        Ok(())
    }

    pub fn name(&self, n: NodeIndex) -> &str {
        self.graph
            .node_weight(n)
            .map_or("", |package| package.name.as_str())
    }

    /// How much some packages take together.
    pub fn size(&self, packages: &[NodeIndex]) -> u64 {
        let mut sum = 0u64;
        for n in packages {
            let size = self.graph.node_weight(*n).map_or(0, |package| package.size);
            sum = sum.saturating_add(size);
        }
        sum
    }

    /// Adds a package, without what it needs. Returns false if another before it has its name.
    fn add(&mut self, rt: &impl Eprint, package: &Package) -> Result<bool> {
        if let Some(first) = self.installed(&package.name) {
            let Package { name, line, .. } = package;
            eprintln!(rt; "line {line}: {name} is in line {} already", first.line)?;
            return Ok(false);
        }
        let n = self.add_new(package)?;
        for other in package.provides.as_slice() {
            self.providers.insert(other.clone()?, n)?;
        }
        Ok(true)
    }

    /// The package of this name.
    fn installed(&self, name: &String) -> Option<&Installed> {
        self.graph.node_weight(*self.indices.get(name)?)
    }

    /// Adds a package with a name that no other has.
    fn add_new(&mut self, package: &Package) -> Result<NodeIndex> {
        if !self.graph.can_add_node() {
            bail!("too many packages");
        }
        let n = self.graph.add_node(Installed {
            name: package.name.clone()?,
            line: package.line,
            size: package.size,
        })?;
        self.indices.insert(package.name.clone()?, n)?;
        Ok(n)
    }

    /// The package of this name, or the one that provides it.
    fn named(&self, name: &str) -> Option<NodeIndex> {
        match self.indices.get(name) {
            Some(n) => Some(*n),
            None => self.providers.get(name).copied(),
        }
    }

    /// The packages of these names, or that provide them. Names that are unknown are reported.
    pub fn all_named(&self, rt: &impl Eprint, names: &[&str]) -> Result<Vec<NodeIndex>> {
        let mut packages = Vec::new(self.alloc);
        for name in names {
            match self.named(name) {
                Some(n) => packages.push(n)?,
                None => eprintln!(rt; "no package {name:?} is installed")?,
            }
        }
        Ok(packages)
    }

    /// The first of some alternatives that is installed, or the package that provides it.
    fn found(&self, alternatives: &[String]) -> Option<NodeIndex> {
        for name in alternatives {
            if let Some(n) = self.named(name.as_str()) {
                return Some(n);
            }
        }
        None
    }

    /// Adds what a package needs, unless it was left out.
    fn depend_all(&mut self, rt: &(impl Eprint + AllocGlobal), package: &Package) -> Result<()> {
        let Some(n) = self.indices.get(&package.name).copied() else {
            return Ok(());
        };
        if self.graph.node_weight(n).map_or(0, |it| it.line) != package.line {
            return Ok(());
        }
        let mut unmet = HashSet::new(self.alloc);
        for need in package.needs.as_slice() {
            match self.found(need.alternatives.as_slice()) {
                Some(needed) => self.depend(needed, n)?,
                None => report_unmet(rt, package, need, &mut unmet)?,
            }
        }
        Ok(())
    }

    /// Adds that one package needs another.
    fn depend(&mut self, needed: NodeIndex, package: NodeIndex) -> Result<()> {
        if needed == package {
            return Ok(());
        }
        let graph = &mut self.graph;
        if !graph.contains_node(needed) || !graph.contains_node(package) || !graph.can_add_edge() {
            bail!("too many needs");
        }
        graph.add_edge(needed, package, ())?;
        Ok(())
    }

    /// The packages in groups: those that need each other are in one.
    pub fn groups(&self) -> Result<Groups<'_>, AllocError> {
        let mut source = Reading::new(&self.graph);
        let components = strongly_connected_components(self.alloc, &mut source)?;
        let dag = condensed_dag(self.alloc, &mut source, &components)?;
        Ok(Groups::of(self.alloc, self, dag))
    }

    /// Reports a shortest cycle through a package, if there is one.
    pub fn report_cycle(&self, rt: &impl Eprint, package: NodeIndex) -> Result<()> {
        let mut source = Reading::new(&self.graph);
        let Some(cycle) = shortest_cycle(self.alloc, &mut source, package)? else {
            return Ok(());
        };
        eprint!(rt; "{}", self.name(package))?;
        for n in cycle.as_slice().iter().rev() {
            eprint!(rt; " needs {}", self.name(*n))?;
        }
        eprintln!(rt; "")?;
        Ok(())
    }
}

/// Reports that none of some alternatives is installed, once for each package. What was reported is
/// in `unmet`.
fn report_unmet(
    rt: &(impl Eprint + AllocGlobal),
    package: &Package,
    need: &Need,
    unmet: &mut HashSet<String>,
) -> Result<()> {
    let mut names = String::new(rt.alloc());
    for (i, name) in need.alternatives.as_slice().iter().enumerate() {
        write!(names, "{}{name}", if i == 0 { "" } else { " | " })?;
    }
    if !unmet.contains(&names) {
        let Need { line, .. } = need;
        eprintln!(rt;
            "line {line}: {} needs {names}, not installed",
            package.name
        )?;
        unmet.insert(names)?;
    }
    Ok(())
}
