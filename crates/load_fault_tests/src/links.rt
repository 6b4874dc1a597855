//! A store with a loop of links.

use fault_io::{Entry, EntryKind, Files, FilesRefusal};
use load_files::{Packages, Paths, Roots, snapshot};
use plain_text::PlainText;
use std::alloc::{AllocError, Global};
use std::test::Fail;

/// A store in which every path is a folder with one link in it, which leads round in a loop.
#[derive(Drop)]
struct Loop {
    lists: u64,
    reads: u64,
}

/// The entry of a link, alone.
fn link(alloc: Global) -> Result<Vec<Entry>, AllocError> {
    let name = PlainText::new(alloc, "link.dart")?;
    let mut entries = Vec::new(alloc);
    entries.push(Entry {
        name,
        kind: EntryKind::Other,
    })?;
    Ok(entries)
}

impl Files for Loop {
    ghost faults = { λ _. 0 };

    ghost lists = { λ s. s.lists };

    ghost reads = { λ s. s.reads };

    fn list(&mut self, alloc: Global, _path: &str) -> Result<Option<Vec<Entry>>, FilesRefusal> {
        self.lists = self.lists.saturating_add(1);
        let entries = link(alloc)?;
        Ok(Some(entries))
    }

    fn read(&mut self, alloc: Global, _path: &str) -> Result<Option<Vec<u8>>, FilesRefusal> {
        self.reads = self.reads.saturating_add(1);
        let bytes = b"a".to_vec(alloc)?;
        Ok(Some(bytes))
    }
}

/// The folder `/r`.
fn roots_of(alloc: Global) -> Result<Roots, AllocError> {
    let mut included = Vec::new(alloc);
    included.push(PlainText::new(alloc, "/r")?)?;
    Ok(Roots {
        included: Paths::from_vec(included),
        excluded: Paths::from_vec(Vec::new(alloc)),
        packages: Packages::from_vec(Vec::new(alloc)),
    })
}

#[test]
fn a_loop_of_links_ends(rt: HostRuntime) -> Result<(), Fail> {
    let alloc = rt.alloc();
    let roots = roots_of(alloc)?;
    let mut store = Loop { lists: 0, reads: 0 };
    let read = snapshot(alloc, &mut store, &roots, &[])?;
    assert_eq!(rt; read.files().len(), 1);
    assert_eq!(rt; (store.lists, store.reads), (1, 1));
    Ok(())
}
