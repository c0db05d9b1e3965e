//! The commands by which ninja made outputs.

use super::begins::stricter_world_in;
use super::*;
use crate::ninja_log::hash_of;

/// The first line of a log of version 5.
const FIRST: &str = "# ninja log v5";

/// Writes ninja's log in a folder: its first line; lines of ninja of `a`, `b` and `c`; lines of this builder of `a`,
/// `c` and `e`, of which that of `e` has the hash of another command than `t`; and a torn line.
fn write_log(rt: &HostRuntime, folder: &str, first: &str) -> Result<(), Fail> {
    let path = format!(in rt.alloc(); "{folder}/.ninja_log")?;
    let (t, other) = (hash_of(b"t"), hash_of(b"other"));
    let text = format!(in rt.alloc();
        "{first}\n0\t7\t9\ta\t{other:x}\n1\t8\t9\tb\t{t:x}\n3\t9\t9\tc\t{t:x}\n0\t0\t0\tc\t0\n0\t0\t9\ta\t{t:x}\n0\t0\t9\te\t{other:x}\n4\t9\t9\ta\n"
    )?;
    fs::write(rt, path.as_str(), text.as_bytes())?;
    Ok(())
}

/// Keeps an entry of an output whose command was `t`.
fn keeps<W: World>(alloc: Global, world: &W, output: &[u8]) -> Result<(), Fail> {
    let order = order_of(alloc, output, b"t", 7, &PathList::empty(alloc)?)?;
    drop(world.keep(0, &order)?);
    Ok(())
}

/// Runs a command that lasts longer than a tick of the file system's clock, for an output that no test looks at.
fn wait<R: Files + Print + Eprint + Wait + AllocGlobal, S: Shells, D: Disk>(
    rt: &impl Abort,
    alloc: Global,
    world: &RealWorld<R, S, D>,
) -> Result<(), Fail>
where
    R::File: Read + Write + Seek + OpenFile + SharedFile + Drop,
{
    let outputs = rows(alloc, &[b"x"])?;
    start_is(rt, alloc, world, b"sleep 0.02", false, &outputs, "exit 0")
}

/// Keeps entries of `a` and `c`, whose command was `t`.
fn keeps_both<W: World>(alloc: Global, world: &W) -> Result<(), Fail> {
    keeps(alloc, world, b"a")?;
    keeps(alloc, world, b"c")
}

/// Checks that the last line of an output counts: each one of ninja, and one of this builder if its hash is that of
/// another command. Marks and torn lines don't count.
#[test]
fn last_command_counts(rt: HostRuntime) -> Result<(), Fail> {
    let folder = folder(&rt, "last_command_counts")?;
    let world = stricter_world_in(&rt, folder.as_str())?;
    keeps_both(rt.alloc(), &world)?;
    wait(&rt, rt.alloc(), &world)?;
    drop(world);
    write_log(&rt, folder.as_str(), FIRST)?;
    let world = stricter_world_in(&rt, folder.as_str())?;
    for (output, first, is_other) in [
        (b"a", b"a", false),
        (b"b", b"a", true),
        (b"c", b"c", false),
        (b"d", b"a", false),
        (b"e", b"a", true),
        (b"b", b"d", false),
    ] {
        assert_eq!(rt; world.foreign_ran_another(output, first)?, is_other);
    }
    drop(world);
    remove(&rt, folder);
    Ok(())
}

/// Checks that each line but a mark counts in a log of another version, and none in a file that is no log.
#[test]
fn other_versions(rt: HostRuntime) -> Result<(), Fail> {
    let folder = folder(&rt, "other_versions")?;
    let world = stricter_world_in(&rt, folder.as_str())?;
    keeps_both(rt.alloc(), &world)?;
    wait(&rt, rt.alloc(), &world)?;
    drop(world);
    for (first, is_other) in [("# ninja log v6", true), ("# other", false)] {
        write_log(&rt, folder.as_str(), first)?;
        let world = stricter_world_in(&rt, folder.as_str())?;
        for output in [b"a", b"b"] {
            assert_eq!(rt; world.foreign_ran_another(output, b"a")?, is_other);
        }
        assert!(rt; !world.foreign_ran_another(b"c", b"c")?);
        assert!(rt; !world.foreign_ran_another(b"d", b"a")?);
        drop(world);
    }
    remove(&rt, folder);
    Ok(())
}

/// Checks that a log counts for nothing if it is older than the record, or by the specified rule.
#[test]
fn older_log(rt: HostRuntime) -> Result<(), Fail> {
    let folder = folder(&rt, "older_log")?;
    let world = stricter_world_in(&rt, folder.as_str())?;
    keeps_both(rt.alloc(), &world)?;
    wait(&rt, rt.alloc(), &world)?;
    drop(world);
    write_log(&rt, folder.as_str(), FIRST)?;
    let world = world_in(&rt, folder.as_str())?;
    assert!(rt; !world.foreign_ran_another(b"b", b"a")?);
    drop(world);
    let world = stricter_world_in(&rt, folder.as_str())?;
    assert!(rt; world.foreign_ran_another(b"b", b"a")?);
    wait(&rt, rt.alloc(), &world)?;
    keeps(rt.alloc(), &world, b"e")?;
    drop(world);
    let world = stricter_world_in(&rt, folder.as_str())?;
    assert!(rt; !world.foreign_ran_another(b"b", b"a")?);
    drop(world);
    remove(&rt, folder);
    Ok(())
}

/// Checks that no line counts for an edge whose command began in this build.
#[test]
fn own_commands(rt: HostRuntime) -> Result<(), Fail> {
    let folder = folder(&rt, "own_commands")?;
    let world = stricter_world_in(&rt, folder.as_str())?;
    keeps_both(rt.alloc(), &world)?;
    wait(&rt, rt.alloc(), &world)?;
    drop(world);
    write_log(&rt, folder.as_str(), FIRST)?;
    let world = stricter_world_in(&rt, folder.as_str())?;
    assert!(rt; world.foreign_ran_another(b"b", b"a")?);
    let outputs = rows(rt.alloc(), &[b"a", b"b"])?;
    start_is(&rt, rt.alloc(), &world, b"true", false, &outputs, "exit 0")?;
    assert!(rt; !world.foreign_ran_another(b"b", b"a")?);
    keeps(rt.alloc(), &world, b"a")?;
    assert!(rt; !world.foreign_ran_another(b"b", b"a")?);
    drop(world);
    remove(&rt, folder);
    Ok(())
}
