//! Files that are saved on the disk.
use fill_edge::Failed;
use fill_files::{FolderStore, Store};
use std::fs;
use std::test::Fail;

/// An old file is replaced, and where a save fails nothing stays beside it.
#[test]
fn a_saved_file_takes_the_place_of_an_old_one(rt: HostRuntime) -> Result<(), Fail> {
    let name = "test_filled saved.rule";
    let mut store = FolderStore::new(rt.alloc(), rt);
    assert_eq!(rt; store.save(name, b"the first one"), Ok(()));
    assert_eq!(rt; store.save(name, b"another"), Ok(()));
    assert_eq!(rt;
        store.save("test_filled gone/saved.rule", b"a third"),
        Err(Failed)
    );
    assert!(rt; fs::read_to_string(&rt, name)?.as_str() == "another");
    assert!(rt; !fs::exists(&rt, ".fillcsv-saving-0")?);
    fs::remove_file(&rt, name)?;
    Ok(())
}
