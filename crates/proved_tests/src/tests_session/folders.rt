//! A client's folder. tests/long/client_state has the rest.

use client_core::{Plan, Scheme};
use client_state::{Folder, FolderFault};
use std::fs;
use std::os::unix::fs::PermissionsExt;
use std::test::Fail;

#[test]
fn a_folder_is_made_for_its_owner_alone(rt: HostRuntime) -> Result<(), Fail> {
    let plan = Plan {
        form: 1,
        width: 8,
        record_len: 2,
        groups: 2,
        dimension: 3,
        seed: [9u8; 32],
    };
    assert!(rt; matches!(Folder::standing(&rt, "made"), Err(FolderFault::State)));
    let folder = Folder::open(&rt, "made")?;
    assert_eq!(rt;
        fs::metadata(&rt, "made")?.permissions().mode() & 0o777,
        0o700
    );
    assert!(rt; folder.kept(Scheme::Simple, &plan)?.is_none());
    folder.discard(Scheme::Simple, &plan)?;
    fs::remove_dir(&rt, "made")?;
    Ok(())
}
