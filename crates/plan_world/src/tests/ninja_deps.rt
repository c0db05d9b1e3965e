//! ninja's record of what its commands read.

use super::begins::stricter_world_in;
use super::*;
use plan_text::PathFilter;

/// What ninja 1.11.1 wrote for the outputs `a` and `b/o`, whose commands read `h/x` and `y`.
const DEPS: [u8; 112] = *b"# ninjadeps\n\x04\0\0\0\
    \x08\0\0\0a\0\0\0\xff\xff\xff\xff\x08\0\0\0h/x\0\xfe\xff\xff\xff\x08\0\0\0y\0\0\0\xfd\xff\xff\xff\
    \x14\0\0\x80\0\0\0\0\x03\x10\xd4\x5b\x04\x2d\xed\x18\x01\0\0\0\x02\0\0\0\
    \x08\0\0\0b/o\0\xfc\xff\xff\xff\
    \x14\0\0\x80\x03\0\0\0\x81\x39\x0b\x5c\x04\x2d\xed\x18\x01\0\0\0\x02\0\0\0";

/// One more list, of `a`: its command read `b/o`.
const LATER: [u8; 20] = *b"\x10\0\0\x80\0\0\0\0\x03\x10\xd4\x5b\x04\x2d\xed\x18\x03\0\0\0";

/// Returns a set of paths.
fn set_of(alloc: Global, paths: &[&[u8]]) -> Result<PathFilter, AllocError> {
    let mut set = PathFilter::new(alloc, paths.len())?;
    for path in paths {
        set.add(*path);
    }
    Ok(set)
}

/// Checks which of the paths `b/o`, `h/x` and `z` the world tells of an output, by ninja's record.
fn foreign_is<W: World>(
    rt: &impl Abort,
    alloc: Global,
    world: &W,
    output: &[u8],
    is_recorded: bool,
    named: &[&[u8]],
) -> Result<(), Fail> {
    let wanted = set_of(alloc, &[b"b/o", b"h/x", b"z"])?;
    match world.foreign_among(alloc, output, &wanted, is_recorded)? {
        Some(found) => {
            assert_eq!(rt; found.len(), named.len());
            for (number, path) in named.iter().enumerate() {
                assert_eq!(rt; found.row(number), *path);
            }
        }
        None => assert_eq!(rt; named.len(), 0),
    }
    Ok(())
}

/// Writes ninja's record in a folder.
fn write_deps(rt: &HostRuntime, folder: &str, bytes: &[u8]) -> Result<(), Fail> {
    let path = format!(in rt.alloc(); "{folder}/.ninja_deps")?;
    fs::write(rt, path.as_str(), bytes)?;
    Ok(())
}

/// Checks that the last list of an output counts, and that an output without a list has no paths.
#[test]
fn last_list_counts(rt: HostRuntime) -> Result<(), Fail> {
    let folder = folder(&rt, "last_list_counts")?;
    let mut bytes = Vec::from_slice(rt.alloc(), &DEPS)?;
    bytes.extend_from_slice(&LATER)?;
    write_deps(&rt, folder.as_str(), &bytes)?;
    let world = stricter_world_in(&rt, folder.as_str())?;
    foreign_is(&rt, rt.alloc(), &world, b"a", false, &[b"b/o"])?;
    foreign_is(&rt, rt.alloc(), &world, b"b/o", false, &[b"h/x"])?;
    foreign_is(&rt, rt.alloc(), &world, b"y", false, &[])?;
    drop(world);
    remove(&rt, folder);
    Ok(())
}

/// Checks that the lists before a torn or damaged record count, and that a file of another version has none.
#[test]
fn damaged_lists(rt: HostRuntime) -> Result<(), Fail> {
    let folder = folder(&rt, "damaged_lists")?;
    for (place, byte) in [(12usize, 3u8), (24, 0), (84, 0), (92, 9)] {
        let mut bytes = Vec::from_slice(rt.alloc(), &DEPS)?;
        bytes[place] = byte;
        write_deps(&rt, folder.as_str(), &bytes)?;
        let world = stricter_world_in(&rt, folder.as_str())?;
        let named: &[&[u8]] = if place > 60 { &[b"h/x"] } else { &[] };
        foreign_is(&rt, rt.alloc(), &world, b"a", false, named)?;
        foreign_is(&rt, rt.alloc(), &world, b"b/o", false, &[])?;
    }
    write_deps(&rt, folder.as_str(), &DEPS[..100])?;
    let world = stricter_world_in(&rt, folder.as_str())?;
    foreign_is(&rt, rt.alloc(), &world, b"a", false, &[b"h/x"])?;
    foreign_is(&rt, rt.alloc(), &world, b"b/o", false, &[])?;
    drop(world);
    remove(&rt, folder);
    Ok(())
}

/// Checks that ninja's record counts for an output whose command has only begun, but not beside an entry unless it is
/// as late as the record was.
#[test]
fn entries_and_lists(rt: HostRuntime) -> Result<(), Fail> {
    let folder = folder(&rt, "entries_and_lists")?;
    let none = PathList::empty(rt.alloc())?;
    let outputs = rows(rt.alloc(), &[b"a"])?;
    write_deps(&rt, folder.as_str(), &DEPS)?;
    let world = stricter_world_in(&rt, folder.as_str())?;
    start_is(
        &rt,
        rt.alloc(),
        &world,
        b"sleep 0.02; false",
        false,
        &outputs,
        "exit 1",
    )?;
    foreign_is(&rt, rt.alloc(), &world, b"a", false, &[b"h/x"])?;
    keep_is(&rt, rt.alloc(), &world, b"b/o", &none, "kept")?;
    foreign_is(&rt, rt.alloc(), &world, b"b/o", false, &[])?;
    drop(world);
    let world = stricter_world_in(&rt, folder.as_str())?;
    foreign_is(&rt, rt.alloc(), &world, b"b/o", true, &[])?;
    drop(world);
    write_deps(&rt, folder.as_str(), &DEPS)?;
    let world = stricter_world_in(&rt, folder.as_str())?;
    foreign_is(&rt, rt.alloc(), &world, b"b/o", true, &[b"h/x"])?;
    foreign_is(&rt, rt.alloc(), &world, b"b/o", false, &[b"h/x"])?;
    drop(world);
    remove(&rt, folder);
    Ok(())
}

/// Keeps an entry with these paths of an output.
fn keeps<W: World>(alloc: Global, world: &W, output: &[u8], paths: &[&[u8]]) -> Result<(), Fail> {
    let paths = PathList::new(alloc, rows(alloc, paths)?)?;
    let order = order_of(alloc, output, b"t", 7, &paths)?;
    drop(world.keep(0, &order)?);
    Ok(())
}

/// Checks that ninja's record names others if it names a path that the entry doesn't have, in whatever order.
#[test]
fn other_paths(rt: HostRuntime) -> Result<(), Fail> {
    let folder = folder(&rt, "other_paths")?;
    for (output, paths, are_others) in [
        (
            b"a".as_slice(),
            [b"h/x".as_slice(), b"y".as_slice()].as_slice(),
            false,
        ),
        (b"a", &[b"y", b"h/x"], false),
        (b"a", &[b"z", b"h/x", b"z", b"y"], false),
        (b"a", &[b"h/x", b"z"], true),
        (b"b/o", &[b"y"], true),
        (b"b/o", &[], true),
        (b"y", &[], false),
    ] {
        let world = stricter_world_in(&rt, folder.as_str())?;
        keeps(rt.alloc(), &world, output, paths)?;
        drop(world);
        write_deps(&rt, folder.as_str(), &DEPS)?;
        let world = stricter_world_in(&rt, folder.as_str())?;
        assert_eq!(rt; world.foreign_names_others(output)?, are_others);
        drop(world);
    }
    remove(&rt, folder);
    Ok(())
}

/// Checks that ninja's record names no others beside an entry that is later, beside a start entry, without an entry,
/// and by the specified rule.
#[test]
fn no_other_paths(rt: HostRuntime) -> Result<(), Fail> {
    let folder = folder(&rt, "no_other_paths")?;
    write_deps(&rt, folder.as_str(), &DEPS)?;
    let none = PathList::empty(rt.alloc())?;
    let world = stricter_world_in(&rt, folder.as_str())?;
    let outputs = rows(rt.alloc(), &[b"a"])?;
    start_is(
        &rt,
        rt.alloc(),
        &world,
        b"sleep 0.02",
        false,
        &outputs,
        "exit 0",
    )?;
    keep_is(&rt, rt.alloc(), &world, b"a", &none, "kept")?;
    drop(world);
    let world = stricter_world_in(&rt, folder.as_str())?;
    assert!(rt; !world.foreign_names_others(b"a")?);
    start_is(&rt, rt.alloc(), &world, b"false", false, &outputs, "exit 1")?;
    drop(world);
    write_deps(&rt, folder.as_str(), &DEPS)?;
    let world = stricter_world_in(&rt, folder.as_str())?;
    assert!(rt; !world.foreign_names_others(b"a")?);
    assert!(rt; !world.foreign_names_others(b"b/o")?);
    keep_is(&rt, rt.alloc(), &world, b"b/o", &none, "kept")?;
    assert!(rt; world.foreign_names_others(b"b/o")?);
    drop(world);
    let world = world_in(&rt, folder.as_str())?;
    assert!(rt; !world.foreign_names_others(b"b/o")?);
    drop(world);
    remove(&rt, folder);
    Ok(())
}

/// Checks that a world of the specified rule has no paths of ninja, nor a world next to a folder of that name.
#[test]
fn no_lists(rt: HostRuntime) -> Result<(), Fail> {
    let folder = folder(&rt, "no_lists")?;
    write_deps(&rt, folder.as_str(), &DEPS)?;
    let world = world_in(&rt, folder.as_str())?;
    foreign_is(&rt, rt.alloc(), &world, b"a", false, &[])?;
    drop(world);
    let path = format!(in rt.alloc(); "{folder}/.ninja_deps")?;
    fs::remove_file(&rt, path.as_str())?;
    fs::create_dir_all(&rt, path.as_str())?;
    let world = stricter_world_in(&rt, folder.as_str())?;
    foreign_is(&rt, rt.alloc(), &world, b"a", false, &[])?;
    drop(world);
    remove(&rt, folder);
    Ok(())
}
