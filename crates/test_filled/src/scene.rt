//! What whole runs of `fillcsv` read and write.
use fill_edge::{MemoryCabinet, MemorySink};
use fill_files::MemoryStore;
use fill_stream::MemorySource;
use fillcsv_run::{Folder, run};
use std::alloc::Global;
use std::mem;
use std::test::Fail;

/// All that a run reads and writes.
#[derive(Drop)]
pub(crate) struct Scene {
    pub words: Vec<String>,
    pub folder: Folder<MemoryCabinet, MemoryStore>,
    pub out: MemorySink,
    pub err: MemorySink,
}

/// A run without words or files. A read gives at most seven bytes.
pub(crate) fn empty_scene(alloc: Global) -> Result<Scene, Fail> {
    let out = MemorySink::new(alloc, 10_000, 10_000)?;
    let err = MemorySink::new(alloc, 10_000, 10_000)?;
    Ok(Scene {
        words: Vec::new(alloc),
        folder: empty_folder(alloc),
        out,
        err,
    })
}

/// No files. A read gives at most seven bytes.
fn empty_folder(alloc: Global) -> Folder<MemoryCabinet, MemoryStore> {
    Folder {
        cabinet: MemoryCabinet::new(alloc, 7),
        store: MemoryStore::new(alloc),
    }
}

/// The status of a run over this input.
pub(crate) fn status(alloc: Global, scene: &mut Scene, input: &[u8]) -> u8 {
    let folder = mem::replace(&mut scene.folder, empty_folder(alloc));
    let ran = run(
        alloc,
        &scene.words,
        folder,
        MemorySource::new(input, 7, 0),
        &mut scene.out,
        &mut scene.err,
    );
    scene.folder = ran.folder;
    ran.status
}
