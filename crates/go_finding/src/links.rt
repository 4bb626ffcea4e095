//! All imports of a program, in order.

ghost use Rattle.std.specs.Prelude.{◌≡◌, ◌++◌, OnOk};
ghost use Rattle.go_finding.specs.Finding.{listed};
ghost use Rattle.go_finding.specs.Linking.{kept_in_file, kept_links};

use crate::found::number_after;
use go_base::{NoMemory, Pos};
use go_sources::Import;
use import_graph::Edge;

/// An import of one package by another, and where it stands.
#[derive(Clone, Copy)]
pub struct Link {
    pub edge: Edge,
    pub at: Pos,
}

/// Adds the imports of the files of the package with this number, of which the first has the number `first`.
pub fn push_links(
    links: &mut Vec<Link>,
    number: u32,
    first: usize,
    imports: &[Vec<Import>],
) -> Result<(), NoMemory>
    ensures { OnOk result (links.new.items ≡ links.old.items ++ kept_links number first (listed imports.now)) }
{
    'files: for (index, imports) in imports.iter().enumerate() {
        let file = number_after(first.saturating_add(index))?;
        push_file_links(links, number, file, imports.as_slice())?;
    }
    Ok(())
}

/// Adds the imports of one file.
fn push_file_links(
    links: &mut Vec<Link>,
    number: u32,
    file: u32,
    imports: &[Import],
) -> Result<(), NoMemory>
    ensures { OnOk result (links.new.items ≡ links.old.items ++ kept_in_file number file imports.now) }
{
    'imports: for import in imports {
        links.push(Link {
            edge: Edge {
                from: number,
                to: import.package,
            },
            at: Pos {
                file,
                offset: import.literal.start,
            },
        })?;
    }
    Ok(())
}
