use crate::disk::RealDisk;
use file_info::info::{Form, Info};
use file_info::path::PathName;
use outside::disk::{Disk, FileBytes};
use outside::law::Law;
use std::alloc::Global;
use std::fs;
use std::test::Fail;

const FILE: &str = "real_world_test_of_a_disk";

const ABSENT: &str = "real_world_test_of_no_file";

// No command does anything.
struct NoLaw;

impl Law for NoLaw {
    ghost does = { λ signature reads found outputs. ⊥ };

    ghost function = { λ s d w v o q a b c. absurd a };
}

fn info<D: Disk<NoLaw>>(disk: &mut D, alloc: Global, text: &str) -> Result<Info, Fail> {
    let path = PathName::read(alloc, text)?;
    Ok(disk.stat(alloc, &path, Form::Follow)?)
}

fn bytes<D: Disk<NoLaw>>(
    disk: &mut D,
    alloc: Global,
    text: &str,
    most: u64,
) -> Result<FileBytes, Fail> {
    let path = PathName::read(alloc, text)?;
    Ok(disk.read(alloc, &path, most)?)
}

#[test]
fn a_disk_tells_of_real_files(rt: HostRuntime) -> Result<(), Fail> {
    let alloc = rt.alloc();
    let mut disk = RealDisk::new(rt);
    fs::write(&rt, FILE, b"text".as_slice())?;
    let file = info(&mut disk, alloc, FILE)?;
    let text = bytes(&mut disk, alloc, FILE, 4)?;
    let more = bytes(&mut disk, alloc, FILE, 3)?;
    fs::remove_file(&rt, FILE)?;
    assert!(rt; matches!(file, Info::File { size: 4, .. }));
    assert!(rt; matches!(&text, FileBytes::Bytes(bytes) if bytes.as_slice() == b"text".as_slice()));
    assert!(rt; matches!(more, FileBytes::TooLong));
    assert!(rt; matches!(info(&mut disk, alloc, ABSENT)?, Info::Missing));
    assert!(rt; matches!(info(&mut disk, alloc, ".")?, Info::Directory));
    assert!(rt; matches!(bytes(&mut disk, alloc, ".", 4)?, FileBytes::NotFile));
    assert_eq!(rt; disk.faults, 0);
    Ok(())
}
