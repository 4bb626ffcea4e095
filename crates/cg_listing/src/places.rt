//! The texts of sites.

ghost use Rattle.std.specs.Prelude.{◌≡◌, ◌++◌, List, OnOk, IsTrue};
ghost use Rattle.go_sources.specs.Loaded.{IsWithin};
ghost use Rattle.go_sources.specs.Sources.{files_of};
ghost use Rattle.go_sources.specs.declared.sources.SourceFile.{SourceFile};
ghost use Rattle.cg_listing.specs.Listing.{site_text, place_text, is_within};
ghost use Rattle.cg_listing.specs.Rows.{IsNamed};

use go_base::{NoMemory, Place, Pos};
use go_sources::Sources;
use go_text::push_number;
use std::alloc::Global;

/// The site that was named last, and its text.
#[derive(Drop)]
pub struct NamedSite {
    site: Option<Pos>,
    text: Vec<u8>,
}

impl NamedSite {
    /// None was named.
    pub fn new(alloc: Global) -> NamedSite
        ensures { (files : List SourceFile) → IsNamed files result.site result.text.items }
    {
        NamedSite {
            site: None,
            text: Vec::new(alloc),
        }
    }

    /// Names a site, which is kept for the lines behind.
    pub fn name(&mut self, alloc: Global, sources: &Sources, site: Pos) -> Result<(), NoMemory>
        requires { IsNamed (files_of sources.now) self.old.site self.old.text.items }
        ensures named { OnOk result (IsNamed (files_of sources.now) self.new.site self.new.text.items) }
        ensures text { OnOk result (self.new.text.items ≡ site_text (files_of sources.now) site) }
    {
        if self.site != Some(site) {
            self.text.clear();
            push_site(alloc, &mut self.text, sources, site)?;
            self.site = Some(site);
        }
        Ok(())
    }

    /// The text of the site.
    pub fn text(&self) -> &[u8]
        ensures { result.now ≡ self.now.text.items }
    {
        self.text.as_slice()
    }
}

/// Adds the path, line and column of a site. Nothing where it lies in no file.
fn push_site(
    alloc: Global,
    text: &mut Vec<u8>,
    sources: &Sources,
    site: Pos,
) -> Result<(), NoMemory>
    ensures { OnOk result (text.new.items ≡ text.old.items ++ site_text (files_of sources.now) site) }
{
    if !lies_in(sources, site) {
        return Ok(());
    }
    let place = sources.place(alloc, site)?;
    push_place(text, &place)
}

fn push_place(text: &mut Vec<u8>, place: &Place) -> Result<(), NoMemory>
    ensures { OnOk result (text.new.items ≡ text.old.items ++ place_text place.now) }
{
    text.extend_from_slice(place.path.as_str().as_bytes())?;
    text.push(b':')?;
    push_number(text, place.line as u64)?;
    text.push(b':')?;
    push_number(text, place.column as u64)
}

/// Whether a site lies in a file of the program.
fn lies_in(sources: &Sources, site: Pos) -> bool
    ensures within { IsTrue result → IsWithin (files_of sources.now) site }
    ensures exact { result ≡ is_within (files_of sources.now) site }
{
    match sources.file(site.file) {
        Some(file) => site.offset as usize <= file.bytes.len(),
        None => false,
    }
}
