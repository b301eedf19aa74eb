//! Ten units in a folder.

use crate::publishing::publish_rest;
use crate::ten::has_front;
use cdc_base::Text;
use cdc_dumper::Dumper;
use cdc_files::FileDisk;
use std::fs;
use std::fs::File;
use std::test::Fail;

// Publishes what is left of the ten units into a folder, in groups; whether the folder has them then.
fn publish_into(rt: &HostRuntime, folder: &str, group: u64) -> Result<bool, Fail> {
    let folder = Text::of(rt.alloc(), folder)?;
    let mut disk: FileDisk<&HostRuntime, File> = FileDisk::new(rt, rt.alloc(), &folder)?;
    let mut dumper = Dumper::open(&mut disk)?;
    Ok(publish_rest(rt.alloc(), &mut dumper, &mut disk, group)? && has_front(&mut disk, 10)?)
}

#[test]
fn a_folder_has_the_ten_units(rt: HostRuntime) -> Result<(), Fail> {
    for (folder, group) in [("one", 1), ("three", 3), ("ten", 10)] {
        let first = publish_into(&rt, folder, group)?;
        let again = publish_into(&rt, folder, group)?;
        assert!(rt; first && again, "{folder}");
    }
    for (path, want) in [
        ("three/binlog.000001", 323),
        ("three/binlog.000002", 323),
        ("three/binlog.000003", 203),
    ] {
        let found = fs::metadata(&rt, path)?.len();
        assert!(rt; found == want, "{path}: {found}");
    }
    Ok(())
}
