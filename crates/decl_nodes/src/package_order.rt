//! The order in which packages are initialised: sorted by path, the first whose imports are all taken comes next.
//! Go specification, "Program initialization".

use crate::error::lost;
use go_base::{NoMemory, Text};
use go_sources::Sources;
use go_tree::{Package, Packages};
use std::alloc::Global;
use std::collections::BTreeSet;

/// The order of packages.
#[derive(Drop)]
pub struct PackageOrder {
    /// The numbers of loading, in the order.
    pub loaded: Vec<u32>,
    /// For each number of loading the place in the order.
    pub numbers: Vec<u32>,
}

impl PackageOrder {
    /// The place of a package in the order, by its number of loading.
    pub fn number(&self, loaded: u32) -> u32 {
        self.numbers
            .as_slice()
            .get(loaded as usize)
            .copied()
            .unwrap_or(u32::MAX)
    }
}

/// What is left to be taken: packages by their ranks among the sorted paths.
#[derive(Drop)]
struct Left {
    /// The rank of each package.
    ranks: Vec<usize>,
    /// The package of each rank.
    sorted: Vec<u32>,
    /// For each package how many imports of it are not taken.
    wanted: Vec<usize>,
    /// For each package the files' imports that want it, by the importing package.
    wanting: Vec<Vec<u32>>,
    /// The ranks of those that are next.
    ready: BTreeSet<usize>,
}

/// The order of the packages.
pub fn order_packages(alloc: Global, sources: &Sources) -> Result<PackageOrder, NoMemory> {
    let mut left = Left::new(alloc, sources)?;
    let mut loaded = Vec::new(alloc);
    let mut numbers = Vec::new(alloc);
    for _ in 0..sources.package_count() {
        numbers.push(0)?;
    }
    for number in 0..sources.package_count() {
        let Some(package) = left.take()? else {
            return Err(lost());
        };
        loaded.push(package)?;
        if let Some(place) = numbers.get_mut(package as usize) {
            *place = narrow(number)?;
        }
    }
    Ok(PackageOrder { loaded, numbers })
}

/// A count as a number of 32 bits.
pub fn narrow(count: usize) -> Result<u32, NoMemory> {
    match u32::try_from(count) {
        Ok(number) => Ok(number),
        Err(_) => Err(lost()),
    }
}

impl Left {
    fn new(alloc: Global, sources: &Sources) -> Result<Left, NoMemory> {
        let sorted = sorted_packages(alloc, sources)?;
        let mut left = Left {
            ranks: Vec::new(alloc),
            sorted,
            wanted: Vec::new(alloc),
            wanting: Vec::new(alloc),
            ready: BTreeSet::new(alloc),
        };
        for _ in 0..sources.package_count() {
            left.ranks.push(0)?;
            left.wanted.push(0)?;
            left.wanting.push(Vec::new(alloc))?;
        }
        left.rank_all();
        left.want_all(sources)?;
        left.begin()?;
        Ok(left)
    }

    fn rank_all(&mut self) {
        for (rank, package) in self.sorted.as_slice().iter().enumerate() {
            if let Some(place) = self.ranks.get_mut(*package as usize) {
                *place = rank;
            }
        }
    }

    fn want_all(&mut self, sources: &Sources) -> Result<(), NoMemory> {
        for file in 0..narrow(sources.file_count())? {
            self.want(sources, file)?;
        }
        Ok(())
    }

    fn want(&mut self, sources: &Sources, file: u32) -> Result<(), NoMemory> {
        let Some(source) = sources.file(file) else {
            return Err(lost());
        };
        for import in sources.imports(file) {
            if let Some(row) = self.wanting.get_mut(import.package as usize) {
                row.push(source.package)?;
            }
            if let Some(count) = self.wanted.get_mut(source.package as usize) {
                *count = count.saturating_add(1);
            }
        }
        Ok(())
    }

    fn begin(&mut self) -> Result<(), NoMemory> {
        for (rank, package) in self.sorted.as_slice().iter().enumerate() {
            if self.wanted.as_slice().get(*package as usize).copied() == Some(0) {
                self.ready.insert(rank)?;
            }
        }
        Ok(())
    }

    /// Takes the next package.
    fn take(&mut self) -> Result<Option<u32>, NoMemory> {
        let Some(rank) = self.ready.pop_first() else {
            return Ok(None);
        };
        let Some(package) = self.sorted.as_slice().get(rank).copied() else {
            return Ok(None);
        };
        let Some(row) = self.wanting.as_slice().get(package as usize) else {
            return Ok(None);
        };
        for importer in row.as_slice() {
            if let Some(count) = self.wanted.get_mut(*importer as usize) {
                *count = count.saturating_sub(1);
                if *count == 0 {
                    if let Some(rank) = self.ranks.as_slice().get(*importer as usize) {
                        self.ready.insert(*rank)?;
                    }
                }
            }
        }
        Ok(Some(package))
    }
}

/// A package and its path.
#[derive(Clone, Copy)]
struct ByPath<'a> {
    path: &'a [u8],
    package: u32,
}

/// The packages by the bytes of their paths.
fn sorted_packages(alloc: Global, sources: &Sources) -> Result<Vec<u32>, NoMemory> {
    let mut paths = Vec::new(alloc);
    for number in 0..narrow(sources.package_count())? {
        let Some(package) = sources.package(number) else {
            return Err(lost());
        };
        paths.push(ByPath {
            path: package.path.as_str().as_bytes(),
            package: number,
        })?;
    }
    paths.sort_by_key(|item| item.path)?;
    let mut sorted = Vec::new(alloc);
    for item in paths.as_slice() {
        sorted.push(item.package)?;
    }
    Ok(sorted)
}

/// The packages in their order.
pub fn packages_of(
    alloc: Global,
    sources: &Sources,
    order: &PackageOrder,
) -> Result<Packages, NoMemory> {
    let mut packages = Packages::new(alloc);
    for loaded in order.loaded.as_slice() {
        let Some(package) = sources.package(*loaded) else {
            return Err(lost());
        };
        packages.push(Package {
            path: Text::new(alloc, package.path.as_str())?,
            label: Text::new(alloc, package.label.as_str())?,
            built_in: package.built_in,
            first_file: package.first_file,
        })?;
    }
    Ok(packages)
}
