//! The packages that a status file describes.
use std::alloc::{AllocError, Global};
use thiserror::Error;

/// A package.
#[derive(Debug, Drop)]
pub struct Package {
    pub name: String,
    /// The number of the line that has its name.
    pub line: u64,
    pub installed: bool,
    /// How much it takes, in kB.
    pub size: u64,
    /// The other names by which it can be needed.
    pub provides: Vec<String>,
    pub needs: Vec<Need>,
}

/// What a package needs: one of some alternatives.
#[derive(Debug, Drop)]
pub struct Need {
    pub line: u64,
    pub alternatives: Vec<String>,
}

/// What is wrong with a line.
#[derive(Debug, Drop, Error)]
pub enum BadLine {
    #[error("\"{0}\" is not UTF-8")]
    NotText(String),
    #[error("{0:?} is not of the form `Field: value`")]
    NoField(String),
    #[error("no `Package:` before {0:?}")]
    NoPackage(String),
    #[error("`Package:` without a name")]
    NoName,
    #[error("{0:?} is not a size")]
    NotASize(String),
    #[error(transparent)]
    Memory(#[from(alloc)] AllocError),
}

/// The fields that are read.
#[derive(Clone, Copy, Debug)]
enum Field {
    Status,
    Size,
    Provides,
    Needs,
    Other,
}

impl Field {
    fn named(name: &str) -> Field {
        match name {
            "Status" => Field::Status,
            "Installed-Size" => Field::Size,
            "Provides" => Field::Provides,
            "Depends" | "Pre-Depends" => Field::Needs,
            _ => Field::Other,
        }
    }
}

/// The name at the front of an item, as of `libc6:any (>= 2.34)`.
fn name_of(item: &str) -> &str {
    let item = item.trim();
    item.split(|c: char| c.is_whitespace() || c == ':' || c == '(')
        .next()
        .unwrap_or(item)
}

/// The names of a list.
fn names(alloc: Global, list: &str, separator: char) -> Result<Vec<String>, AllocError> {
    let mut names = Vec::new(alloc);
    for item in list.split(separator) {
        let name = name_of(item);
        if !name.is_empty() {
            names.push(String::from_str(alloc, name)?)?;
        }
    }
    Ok(names)
}

/// What the lines belong to that come next.
#[derive(Clone, Copy, Debug)]
enum Paragraph {
    /// None has begun.
    None,
    /// The last package.
    Package,
    /// A package without a name, which is left out.
    Nameless,
}

/// The packages read so far.
#[derive(Drop)]
pub struct Packages {
    alloc: Global,
    packages: Vec<Package>,
    // The paragraph of the line before, its field, and its number.
    paragraph: Paragraph,
    field: Field,
    line: u64,
}

impl Packages {
    /// No packages.
    pub fn new(alloc: Global) -> Packages {
        Packages {
            alloc,
            packages: Vec::new(alloc),
            paragraph: Paragraph::None,
            field: Field::Other,
            line: 0,
        }
    }

    pub fn as_slice(&self) -> &[Package] {
        self.packages.as_slice()
    }

    /// Reads the line of this number. An empty one ends a paragraph, and one that begins with a
    /// blank goes on with the field before it.
    pub fn take_line(&mut self, number: u64, bytes: &[u8]) -> Result<(), BadLine> {
        self.line = number;
        let Ok(line) = str::from_utf8(bytes) else {
            let text = format!(in self.alloc; "{}", bytes.escape_ascii())?;
            return Err(BadLine::NotText(text));
        };
        if line.trim().is_empty() {
            self.paragraph = Paragraph::None;
            return Ok(());
        }
        if line.starts_with(char::is_whitespace) {
            return self.take_value(line.trim(), line);
        }
        let Some((name, value)) = line.split_once(':') else {
            return Err(BadLine::NoField(self.text(line)?));
        };
        if name == "Package" {
            return self.begin(value.trim());
        }
        self.field = Field::named(name);
        self.take_value(name, value)
    }

    fn text(&self, text: &str) -> Result<String, AllocError> {
        String::from_str(self.alloc, text)
    }

    /// Begins with a package.
    fn begin(&mut self, name: &str) -> Result<(), BadLine> {
        self.field = Field::Other;
        if name.is_empty() {
            self.paragraph = Paragraph::Nameless;
            return Err(BadLine::NoName);
        }
        self.paragraph = Paragraph::Package;
        let package = Package {
            name: self.text(name)?,
            line: self.line,
            installed: true,
            size: 0,
            provides: Vec::new(self.alloc),
            needs: Vec::new(self.alloc),
        };
        self.packages.push(package)?;
        Ok(())
    }

    /// Takes the value of a field, or a part of it, for the package of the paragraph. A message
    /// that there is none has `word`.
    fn take_value(&mut self, word: &str, value: &str) -> Result<(), BadLine> {
        match (self.paragraph, self.packages.last_mut()) {
            (Paragraph::Nameless, _) => Ok(()),
            (Paragraph::Package, Some(package)) => {
                package.take_value(self.alloc, self.line, self.field, value)
            }
            _ => Err(BadLine::NoPackage(self.text(word)?)),
        }
    }
}

impl Package {
    /// Takes the value of a field, or the part of it on this line.
    fn take_value(
        &mut self,
        alloc: Global,
        line: u64,
        field: Field,
        value: &str,
    ) -> Result<(), BadLine> {
        match field {
            Field::Status => self.installed = value.trim().ends_with(" installed"),
            Field::Size => match value.trim().parse() {
                Ok(size) => self.size = size,
                Err(_) => {
                    return Err(BadLine::NotASize(String::from_str(alloc, value.trim())?));
                }
            },
            Field::Provides => {
                for name in names(alloc, value, ',')? {
                    self.provides.push(name)?;
                }
            }
            Field::Needs => {
                for need in value.split(',') {
                    let alternatives = names(alloc, need, '|')?;
                    // A line that goes on in the next one ends with a comma.
                    if !alternatives.is_empty() {
                        self.needs.push(Need { line, alternatives })?;
                    }
                }
            }
            Field::Other => {}
        }
        Ok(())
    }
}
