//! Recorded paths that start entries keep, and depfiles that are removed.

use super::begins::stricter_world_in;
use super::*;
use plan_text::PathFilter;

/// Returns a set of paths.
fn set_of(alloc: Global, paths: &[&[u8]]) -> Result<PathFilter, AllocError> {
    let mut set = PathFilter::new(alloc, paths.len())?;
    for path in paths {
        set.add(*path);
    }
    Ok(set)
}

/// Begins the command of the edge of these files.
fn begins<R: Files + Print + Eprint + Wait + AllocGlobal, S: Shells, D: Disk>(
    rt: &impl Abort,
    alloc: Global,
    world: &RealWorld<R, S, D>,
    files: &[&[u8]],
) -> Result<(), Fail>
where
    R::File: Read + Write + Seek + OpenFile + SharedFile + Drop,
{
    let outputs = rows(alloc, files)?;
    start_is(rt, alloc, world, b"false", false, &outputs, "exit 1")
}

/// Checks which of the paths `x` and `y` the start entry of an output keeps.
fn begun_among_is<W: World>(
    rt: &impl Abort,
    alloc: Global,
    world: &W,
    output: &[u8],
    kept: &[&[u8]],
) -> Result<(), Fail> {
    let wanted = set_of(alloc, &[b"x", b"y"])?;
    match world.begun_among(alloc, output, &wanted)? {
        Some(found) => {
            assert_eq!(rt; found.len(), kept.len());
            for (number, path) in kept.iter().enumerate() {
                assert_eq!(rt; found.row(number), *path);
            }
        }
        None => assert_eq!(rt; kept.len(), 0),
    }
    Ok(())
}

/// Keeps an entry of `a` with the paths `x` and `y`, of which edges make `y`. Checks that `y` is kept by the start
/// entries of its command, also by a second one.
fn output_is_kept<R: Files + Print + Eprint + Wait + AllocGlobal, S: Shells, D: Disk>(
    rt: &impl Abort,
    alloc: Global,
    world: &RealWorld<R, S, D>,
) -> Result<(), Fail>
where
    R::File: Read + Write + Seek + OpenFile + SharedFile + Drop,
{
    let paths = PathList::new(alloc, rows(alloc, &[b"x", b"y"])?)?;
    world.take_outputs(set_of(alloc, &[b"a", b"y"])?);
    keep_is(rt, alloc, world, b"a", &paths, "kept")?;
    begun_among_is(rt, alloc, world, b"a", &[])?;
    begins(rt, alloc, world, &[b"a"])?;
    begun_among_is(rt, alloc, world, b"a", &[b"y"])?;
    begins(rt, alloc, world, &[b"a", b"b"])?;
    begun_among_is(rt, alloc, world, b"a", &[b"y"])?;
    begun_among_is(rt, alloc, world, b"b", &[])
}

/// Makes `b` by the edge of `a`, and then by another one. Checks that the start entry of `a` keeps `y` all the same,
/// and also the one of an entry that was ended for this build.
fn ended_is_kept<R: Files + Print + Eprint + Wait + AllocGlobal, S: Shells, D: Disk>(
    rt: &impl Abort,
    alloc: Global,
    world: &RealWorld<R, S, D>,
) -> Result<(), Fail>
where
    R::File: Read + Write + Seek + OpenFile + SharedFile + Drop,
{
    let paths = PathList::new(alloc, rows(alloc, &[b"y"])?)?;
    keep_is(rt, alloc, world, b"a", &paths, "kept")?;
    begins(rt, alloc, world, &[b"b"])?;
    begun_among_is(rt, alloc, world, b"a", &[b"y"])?;
    keep_is(rt, alloc, world, b"b", &paths, "kept")?;
    world.forget(b"b", b"")?;
    begun_among_is(rt, alloc, world, b"b", &[])?;
    begins(rt, alloc, world, &[b"c"])?;
    begun_among_is(rt, alloc, world, b"b", &[b"y"])
}

/// Checks that start entries keep the recorded paths that edges make, also in a later build.
#[test]
fn start_entries_keep_paths(rt: HostRuntime) -> Result<(), Fail> {
    let folder = folder(&rt, "kept_paths")?;
    let world = stricter_world_in(&rt, folder.as_str())?;
    output_is_kept(&rt, rt.alloc(), &world)?;
    drop(world);
    let world = stricter_world_in(&rt, folder.as_str())?;
    begun_among_is(&rt, rt.alloc(), &world, b"a", &[b"y"])?;
    world.take_outputs(set_of(rt.alloc(), &[b"y"])?);
    ended_is_kept(&rt, rt.alloc(), &world)?;
    drop(world);
    remove(&rt, folder);
    Ok(())
}

/// Checks that start entries keep nothing if no edge makes a recorded path, as far as the world was told.
#[test]
fn only_outputs_are_kept(rt: HostRuntime) -> Result<(), Fail> {
    let folder = folder(&rt, "only_outputs")?;
    let record = format!(in rt.alloc(); "{folder}/record")?;
    let world = stricter_world_in(&rt, folder.as_str())?;
    let paths = PathList::new(rt.alloc(), rows(rt.alloc(), &[b"x"])?)?;
    keep_is(&rt, rt.alloc(), &world, b"a", &paths, "kept")?;
    let len = fs::metadata(&rt, record.as_str())?.len();
    begins(&rt, rt.alloc(), &world, &[b"a"])?;
    begun_among_is(&rt, rt.alloc(), &world, b"a", &[])?;
    drop(world);
    assert_eq!(rt;
        fs::metadata(&rt, record.as_str())?.len(),
        len + BEGUN_ENTRY.len() as u64
    );
    remove(&rt, folder);
    Ok(())
}

/// Writes a depfile, reads it under a number, and lets the world remove depfiles, of which some must stay. Returns
/// whether the depfile is there then.
fn stays<W: World>(
    rt: &HostRuntime,
    world: &W,
    path: &str,
    text: &[u8],
    number: u64,
    others: Option<PathFilter>,
) -> Result<bool, Fail> {
    fs::write(rt, path, text)?;
    drop(world.read_depfile(number, path.as_bytes())?);
    world.take_others(others);
    world.remove_depfiles();
    Ok(fs::exists(rt, path)?)
}

/// Checks that depfiles that edges have read and that name something are removed, unless a stamp is unknown.
#[test]
fn depfiles_are_removed(rt: HostRuntime) -> Result<(), Fail> {
    let folder = folder(&rt, "removed_depfiles")?;
    let path = format!(in rt.alloc(); "{folder}/a.d")?;
    let world = stricter_world_in(&rt, folder.as_str())?;
    let none = || set_of(rt.alloc(), &[]);
    assert!(rt; stays(&rt, &world, path.as_str(), b"a: b\n", 0, Some(none()?))?);
    assert!(rt; stays(&rt, &world, path.as_str(), b"a:\n", 1, Some(none()?))?);
    assert!(rt; stays(&rt, &world, path.as_str(), b"a b\n", 1, Some(none()?))?);
    assert!(rt; !stays(&rt, &world, path.as_str(), b"a: b\n", 1, Some(none()?))?);
    drop(world.stat(1, b"\xff")?);
    assert!(rt; stays(&rt, &world, path.as_str(), b"a: b\n", 1, Some(none()?))?);
    drop(world);
    remove(&rt, folder);
    Ok(())
}

/// Checks that files stay that the manifest needs, those in a folder that an edge makes, and all of them if nothing is
/// known of the manifest, or by the specified rule.
#[test]
fn needed_depfiles_stay(rt: HostRuntime) -> Result<(), Fail> {
    let folder = folder(&rt, "needed_depfiles")?;
    let path = format!(in rt.alloc(); "{folder}/a.d")?;
    let world = stricter_world_in(&rt, folder.as_str())?;
    let needed = set_of(rt.alloc(), &[path.as_bytes()])?;
    assert!(rt; stays(&rt, &world, path.as_str(), b"a: b\n", 1, None)?);
    assert!(rt; stays(&rt, &world, path.as_str(), b"a: b\n", 1, Some(needed))?);
    world.take_outputs(set_of(rt.alloc(), &[path.as_bytes()])?);
    let none = set_of(rt.alloc(), &[])?;
    assert!(rt; stays(&rt, &world, path.as_str(), b"a: b\n", 1, Some(none))?);
    world.take_outputs(set_of(rt.alloc(), &[folder.as_bytes()])?);
    let none = set_of(rt.alloc(), &[])?;
    assert!(rt; stays(&rt, &world, path.as_str(), b"a: b\n", 1, Some(none))?);
    drop(world);
    let world = world_in(&rt, folder.as_str())?;
    let none = set_of(rt.alloc(), &[])?;
    assert!(rt; stays(&rt, &world, path.as_str(), b"a: b\n", 1, Some(none))?);
    drop(world);
    remove(&rt, folder);
    Ok(())
}
