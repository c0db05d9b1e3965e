//! Commands that begin in a world of the stricter rule, and entries that are ended.

use super::*;
use crate::OpenFault;

/// The entry of output `b` of the edge of `a`, which was begun.
const BEGUN_SECOND: [u8; 44] =
    *b"\0\0\0\x28\0\x01b\0\0\0\x01\0\0\0\0\0\0\0\0\0\0\0\0\x02\0\x0f/dev/null/begun\0\x01a";

/// Opens a world of the stricter rule with its record in a folder.
pub(crate) fn stricter_world_in(rt: &HostRuntime, folder: &str) -> Result<SystemWorld, Fail> {
    let record = format!(in rt.alloc(); "{folder}/record")?;
    let shells = SystemShells::new(rt.clone()?);
    Ok(RealWorld::open_stricter(
        rt.clone()?,
        shells,
        SystemDisk::new(rt.clone()?),
        record.as_str(),
    )?)
}

/// Checks that each output of an edge has a start entry while its command runs, that of the first one last.
#[test]
fn all_outputs_begin(rt: HostRuntime) -> Result<(), Fail> {
    let folder = folder(&rt, "all_outputs_begin")?;
    let copy = format!(in rt.alloc(); "{folder}/copy")?;
    let command = format!(in rt.alloc(); "cp {folder}/record {copy}")?;
    let outputs = rows(rt.alloc(), &[b"a", b"b"])?;
    let world = stricter_world_in(&rt, folder.as_str())?;
    start_is(
        &rt,
        rt.alloc(),
        &world,
        command.as_bytes(),
        false,
        &outputs,
        "exit 0",
    )?;
    drop(world);
    let mut bytes = Vec::from_slice(rt.alloc(), &BEGUN_SECOND)?;
    bytes.extend_from_slice(&BEGUN_ENTRY)?;
    file_is(&rt, copy.as_str(), &bytes)?;
    remove(&rt, folder);
    Ok(())
}

/// Checks that only the first output of an edge has a start entry by the specified rule.
#[test]
fn first_output_begins(rt: HostRuntime) -> Result<(), Fail> {
    let folder = folder(&rt, "first_output_begins")?;
    let record = format!(in rt.alloc(); "{folder}/record")?;
    let outputs = rows(rt.alloc(), &[b"a", b"b"])?;
    let world = world_in(&rt, folder.as_str())?;
    start_is(&rt, rt.alloc(), &world, b"true", false, &outputs, "exit 0")?;
    drop(world);
    file_is(&rt, record.as_str(), BEGUN_ENTRY.as_slice())?;
    remove(&rt, folder);
    Ok(())
}

/// Starts a command for these files and keeps an entry of this output.
pub(crate) fn makes<R: Files + Print + Eprint + Wait + AllocGlobal, S: Shells, D: Disk>(
    rt: &impl Abort,
    alloc: Global,
    world: &RealWorld<R, S, D>,
    files: &[&[u8]],
    output: &[u8],
) -> Result<(), Fail>
where
    R::File: Read + Write + Seek + OpenFile + SharedFile + Drop,
{
    let outputs = rows(alloc, files)?;
    start_is(rt, alloc, world, b"true", false, &outputs, "exit 0")?;
    keep_is(rt, alloc, world, output, &PathList::empty(alloc)?, "kept")
}

/// Returns whether an output's edge was begun, by what the record has for it.
fn has_start_entry<W: World>(world: &W, output: &[u8]) -> Result<bool, Fail> {
    Ok(recalled(world, output)?.command().as_slice() == b"\0".as_slice())
}

/// Makes `a` and `b` by the edge of `a`, and then `b` by an edge of its own. Checks that the entry of `a` ended then,
/// and that neither entry ends when the edge of `b` runs again.
fn other_entry_ends<R: Files + Print + Eprint + Wait + AllocGlobal, S: Shells, D: Disk>(
    rt: &impl Abort,
    alloc: Global,
    world: &RealWorld<R, S, D>,
) -> Result<(), Fail>
where
    R::File: Read + Write + Seek + OpenFile + SharedFile + Drop,
{
    makes(rt, alloc, world, &[b"a", b"b"], b"a")?;
    makes(rt, alloc, world, &[b"a", b"b"], b"a")?;
    assert!(rt; !has_start_entry(world, b"a")?);
    makes(rt, alloc, world, &[b"b"], b"b")?;
    assert!(rt; has_start_entry(world, b"a")?);
    makes(rt, alloc, world, &[b"a"], b"a")?;
    makes(rt, alloc, world, &[b"b"], b"b")?;
    assert!(rt; !has_start_entry(world, b"a")?);
    Ok(())
}

/// Checks that the entry of an edge ends when another edge makes its second output.
#[test]
fn entry_of_another_edge_ends(rt: HostRuntime) -> Result<(), Fail> {
    let folder = folder(&rt, "another_edge_ends")?;
    let world = stricter_world_in(&rt, folder.as_str())?;
    other_entry_ends(&rt, rt.alloc(), &world)?;
    drop(world);
    remove(&rt, folder);
    Ok(())
}

/// Returns the basis of an entry that is kept with the greatest basis, after its command began or without that.
fn kept_basis<R: Files + Print + Eprint + Wait + AllocGlobal, S: Shells, D: Disk>(
    rt: &impl Abort,
    alloc: Global,
    world: &RealWorld<R, S, D>,
    begins: bool,
) -> Result<u64, Fail>
where
    R::File: Read + Write + Seek + OpenFile + SharedFile + Drop,
{
    let outputs = rows(alloc, &[b"a"])?;
    if begins {
        start_is(rt, alloc, world, b"true", false, &outputs, "exit 0")?;
    }
    let none = PathList::empty(alloc)?;
    let order = order_of(alloc, b"a", b"t", u64::MAX, &none)?;
    let answer = said(alloc, world.keep(0, &order)?)?;
    assert_eq!(rt; answer.as_str(), "kept");
    basis_of(world, b"a")
}

/// Checks that the basis of an entry is at most the begin of its command, unless a smaller one is kept.
#[test]
fn basis_is_the_begin(rt: HostRuntime) -> Result<(), Fail> {
    let folder = folder(&rt, "basis_is_the_begin")?;
    let world = stricter_world_in(&rt, folder.as_str())?;
    let basis = kept_basis(&rt, rt.alloc(), &world, true)?;
    makes(&rt, rt.alloc(), &world, &[b"a"], b"a")?;
    let least = basis_of(&world, b"a")?;
    drop(world);
    assert!(rt; basis > 1_000_000_000_000_000_000);
    assert!(rt; basis < u64::MAX);
    assert_eq!(rt; least, 7);
    remove(&rt, folder);
    Ok(())
}

/// Checks that the basis of an entry is kept as it is by the specified rule.
#[test]
fn basis_is_exact(rt: HostRuntime) -> Result<(), Fail> {
    let folder = folder(&rt, "basis_is_exact")?;
    let world = world_in(&rt, folder.as_str())?;
    let basis = kept_basis(&rt, rt.alloc(), &world, true)?;
    drop(world);
    assert_eq!(rt; basis, u64::MAX);
    remove(&rt, folder);
    Ok(())
}

/// Ends the entry of `a` for this build. Checks that it counts as begun until its command has begun again.
fn is_forgotten<R: Files + Print + Eprint + Wait + AllocGlobal, S: Shells, D: Disk>(
    rt: &impl Abort,
    alloc: Global,
    world: &RealWorld<R, S, D>,
) -> Result<(), Fail>
where
    R::File: Read + Write + Seek + OpenFile + SharedFile + Drop,
{
    keep_is(rt, alloc, world, b"a", &PathList::empty(alloc)?, "kept")?;
    keep_is(rt, alloc, world, b"b", &PathList::empty(alloc)?, "kept")?;
    world.forget(b"a", b"")?;
    assert!(rt; has_start_entry(world, b"a")?);
    assert!(rt; !has_start_entry(world, b"b")?);
    makes(rt, alloc, world, &[b"a"], b"a")?;
    assert!(rt; !has_start_entry(world, b"a")?);
    Ok(())
}

/// Checks that an entry that was ended for a build is in the record of the next one.
#[test]
fn forgotten_entry(rt: HostRuntime) -> Result<(), Fail> {
    let folder = folder(&rt, "forgotten_entry")?;
    let world = stricter_world_in(&rt, folder.as_str())?;
    is_forgotten(&rt, rt.alloc(), &world)?;
    world.forget(b"b", b"")?;
    drop(world);
    let world = world_in(&rt, folder.as_str())?;
    assert!(rt; !has_start_entry(&world, b"b")?);
    drop(world);
    remove(&rt, folder);
    Ok(())
}

/// Checks that an entry that was ended for a build has ended for good once another command has begun.
#[test]
fn forgotten_entry_of_a_later_build(rt: HostRuntime) -> Result<(), Fail> {
    let folder = folder(&rt, "forgotten_later")?;
    let world = stricter_world_in(&rt, folder.as_str())?;
    is_forgotten(&rt, rt.alloc(), &world)?;
    world.forget(b"b", b"")?;
    makes(&rt, rt.alloc(), &world, &[b"a"], b"a")?;
    drop(world);
    let world = world_in(&rt, folder.as_str())?;
    assert!(rt; has_start_entry(&world, b"b")?);
    assert!(rt; !has_start_entry(&world, b"a")?);
    drop(world);
    remove(&rt, folder);
    Ok(())
}

/// Checks that a file that is no record is refused, and stays as it is.
#[test]
fn strange_file(rt: HostRuntime) -> Result<(), Fail> {
    let folder = folder(&rt, "strange_file")?;
    let path = format!(in rt.alloc(); "{folder}/main.c")?;
    for bytes in [
        b"int main(void) { return 0; }".as_slice(),
        b"i",
        b"\0\0\0\x25\x10\x01",
        b"\0\0\0\x25\0\0",
    ] {
        fs::write(&rt, path.as_str(), bytes)?;
        let world = RealWorld::open(
            rt.clone()?,
            SystemShells::new(rt.clone()?),
            SystemDisk::new(rt.clone()?),
            path.as_str(),
        );
        match world {
            Ok(world) => {
                drop(world);
                panic!(rt; "opened");
            }
            Err(fault) => assert_eq!(rt; fault, OpenFault::Device),
        }
        file_is(&rt, path.as_str(), bytes)?;
    }
    remove(&rt, folder);
    Ok(())
}

/// Checks that a torn first entry is cut off, however much of it there is.
#[test]
fn torn_first_entry(rt: HostRuntime) -> Result<(), Fail> {
    let folder = folder(&rt, "torn_first_entry")?;
    let path = format!(in rt.alloc(); "{folder}/record")?;
    for len in 0..BEGUN_ENTRY.len() {
        fs::write(&rt, path.as_str(), &BEGUN_ENTRY[..len])?;
        drop(world_in(&rt, folder.as_str())?);
        file_is(&rt, path.as_str(), &[])?;
    }
    remove(&rt, folder);
    Ok(())
}
