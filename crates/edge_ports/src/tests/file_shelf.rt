use crate::{FileShelf, Reason, Shelf, ShelfFault};
use guest_words::Bytes;
use std::alloc::{AllocError, Global};
use std::fs;
use std::test::Fail;

/// So many bytes, of which no two chunks of a file are alike.
fn bytes_of_size(alloc: Global, size: u64) -> Result<Vec<u8>, AllocError> {
    let mut bytes = Vec::new(alloc);
    for at in 0..size {
        bytes.push((at % 251) as u8)?;
    }
    Ok(bytes)
}

/// Whether a shelf loads these bytes under a name.
fn loads(rt: &HostRuntime, name: &str, bytes: &[u8]) -> Result<bool, Fail> {
    let mut shelf = FileShelf::new(rt.clone()?);
    Ok(match shelf.load(rt.alloc(), name, 20_000) {
        Ok(loaded) => loaded.items() == bytes,
        Err(_) => false,
    })
}

#[test]
fn a_file_of_each_size_is_loaded(rt: HostRuntime) -> Result<(), Fail> {
    for size in [0, 1, 4095, 4096, 4097, 20_000] {
        let bytes = bytes_of_size(rt.alloc(), size)?;
        fs::write(&rt, "edge_ports_sized", bytes.as_slice())?;
        assert!(rt; loads(&rt, "edge_ports_sized", bytes.as_slice())?, "{size}");
    }
    fs::remove_file(&rt, "edge_ports_sized")?;
    Ok(())
}

/// Why at most five bytes aren't loaded, None where they are.
fn fault_of_load(rt: &HostRuntime, name: &str) -> Result<Option<ShelfFault>, Fail> {
    let mut shelf = FileShelf::new(rt.clone()?);
    Ok(shelf.load(rt.alloc(), name, 5).err())
}

#[test]
fn what_is_no_short_file_is_refused(rt: HostRuntime) -> Result<(), Fail> {
    let long = ShelfFault::TooLong { length: 7 };
    fs::write(&rt, "edge_ports_long", "7 bytes")?;
    assert_eq!(rt; fault_of_load(&rt, "edge_ports_long")?, Some(long));
    fs::remove_file(&rt, "edge_ports_long")?;
    for (name, reason) in [("edge_ports_long", Reason::NotFound), (".", Reason::Folder)] {
        assert_eq!(rt; fault_of_load(&rt, name)?, Some(ShelfFault::Failed(reason)));
    }
    Ok(())
}

/// Whether a save of a text succeeds.
fn saves(rt: &HostRuntime, name: &str, text: &str) -> Result<bool, Fail> {
    let bytes = Bytes::of(text.as_bytes().to_vec(rt.alloc())?);
    Ok(
        FileShelf::new(rt.clone()?)
            .save(rt.alloc(), name, &bytes)
            .is_ok(),
    )
}

#[test]
fn a_save_replaces_a_file_whole(rt: HostRuntime) -> Result<(), Fail> {
    for text in ["first", "two"] {
        assert!(rt; saves(&rt, "edge_ports_saved", text)?);
        assert!(rt; loads(&rt, "edge_ports_saved", text.as_bytes())?);
    }
    fs::remove_file(&rt, "edge_ports_saved")?;
    Ok(())
}

// Another file stands where the new one would be written.
#[test]
fn a_save_that_fails_leaves_both_files(rt: HostRuntime) -> Result<(), Fail> {
    fs::write(&rt, "edge_ports_old", "two")?;
    fs::write(&rt, "edge_ports_old.saving", "mine")?;
    assert!(rt; !saves(&rt, "edge_ports_old", "three")?);
    assert!(rt; loads(&rt, "edge_ports_old", b"two")?);
    assert!(rt; loads(&rt, "edge_ports_old.saving", b"mine")?);
    fs::remove_file(&rt, "edge_ports_old.saving")?;
    fs::remove_file(&rt, "edge_ports_old")?;
    Ok(())
}

#[test]
fn a_save_that_cannot_be_renamed_leaves_nothing(rt: HostRuntime) -> Result<(), Fail> {
    fs::create_dir(&rt, "edge_ports_folder")?;
    assert!(rt; !saves(&rt, "edge_ports_folder", "text")?);
    assert!(rt; !loads(&rt, "edge_ports_folder.saving", b"text")?);
    fs::remove_dir(&rt, "edge_ports_folder")?;
    Ok(())
}
