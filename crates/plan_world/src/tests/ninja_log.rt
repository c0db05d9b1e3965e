//! ninja's own log, in which outputs are marked.

use super::begins::stricter_world_in;
use super::*;
use crate::ninja_log::{hash_of, lines_of};

/// Checks that hashes of commands of each length modulo 8, and of one that isn't ASCII, are those that ninja 1.11.1
/// wrote into its log.
#[test]
fn hashes_are_those_of_ninja(rt: HostRuntime) -> Result<(), Fail> {
    assert_eq!(rt; hash_of(b":"), 0x2e49_d247_7c67_37f0);
    assert_eq!(rt; hash_of(b"true"), 0x486a_3aca_dd11_6b47);
    assert_eq!(rt; hash_of(b"echo ab"), 0xa095_642e_75b0_429f);
    assert_eq!(rt; hash_of(b"echo abc"), 0xb718_193f_4abd_fb1c);
    assert_eq!(rt; hash_of(b"echo abcd"), 0x6063_0a6f_9154_43fc);
    assert_eq!(rt; hash_of(b"echo abcdefghij"), 0x26d0_7a1a_9d27_ff14);
    assert_eq!(rt; hash_of(b"echo abcdefghijk"), 0x4068_8f85_5dc2_ccb1);
    let text = "touch h8 && echo 'caf\u{e9} \u{20ac}' # end";
    assert_eq!(rt; hash_of(text.as_bytes()), 0x1272_ff4e_1ce5_f0cf);
    Ok(())
}

/// Checks that each output has a line.
#[test]
fn each_output_has_a_line(rt: HostRuntime) -> Result<(), Fail> {
    let outputs = rows(rt.alloc(), &[b"a", b"b"])?;
    let lines = lines_of(rt.alloc(), b"0\t0\t0\t", &outputs, b"\t0\n")?;
    assert_eq!(rt;
        lines.as_slice(),
        b"0\t0\t0\ta\t0\n0\t0\t0\tb\t0\n".as_slice()
    );
    Ok(())
}

/// Runs a command that makes a file, and keeps the entry of the command `true` with the greatest basis. Returns the
/// basis that was kept.
fn made<R: Files + Print + Eprint + Wait + AllocGlobal, S: Shells, D: Disk>(
    rt: &impl Abort,
    alloc: Global,
    world: &RealWorld<R, S, D>,
    command: &str,
    file: &str,
) -> Result<u64, Fail>
where
    R::File: Read + Write + Seek + OpenFile + SharedFile + Drop,
{
    let outputs = rows(alloc, &[file.as_bytes()])?;
    start_is(
        rt,
        alloc,
        world,
        command.as_bytes(),
        false,
        &outputs,
        "exit 0",
    )?;
    let none = PathList::empty(alloc)?;
    let order = order_of(alloc, file.as_bytes(), b"true", u64::MAX, &none)?;
    let answer = said(alloc, world.keep(0, &order)?)?;
    assert_eq!(rt; answer.as_str(), "kept");
    basis_of(world, file.as_bytes())
}

/// Checks that the outputs of a command are out of date in a log of version 5, which ends within a line, and then up to
/// date since the begin of the command.
#[test]
fn outputs_are_marked(rt: HostRuntime) -> Result<(), Fail> {
    let folder = folder(&rt, "outputs_are_marked")?;
    let log = format!(in rt.alloc(); "{folder}/.ninja_log")?;
    let file = format!(in rt.alloc(); "{folder}/a")?;
    let command = format!(in rt.alloc(); "touch {file}")?;
    fs::write(&rt, log.as_str(), b"# ninja log v5\n1\t2".as_slice())?;
    let world = stricter_world_in(&rt, folder.as_str())?;
    let begin = made(&rt, rt.alloc(), &world, command.as_str(), file.as_str())?;
    drop(world);
    let text = format!(in rt.alloc();
        "# ninja log v5\n1\t2\n0\t0\t0\t{file}\t0\n0\t0\t{begin}\t{file}\t486a3acadd116b47\n"
    )?;
    file_is(&rt, log.as_str(), text.as_bytes())?;
    remove(&rt, folder);
    Ok(())
}

/// Checks that the outputs of a command stay out of date in a log of another version.
#[test]
fn other_version_of_the_log(rt: HostRuntime) -> Result<(), Fail> {
    let folder = folder(&rt, "other_version_of_the_log")?;
    let log = format!(in rt.alloc(); "{folder}/.ninja_log")?;
    let file = format!(in rt.alloc(); "{folder}/a")?;
    let command = format!(in rt.alloc(); "touch {file}")?;
    fs::write(&rt, log.as_str(), b"# ninja log v6\n".as_slice())?;
    let world = stricter_world_in(&rt, folder.as_str())?;
    made(&rt, rt.alloc(), &world, command.as_str(), file.as_str())?;
    drop(world);
    let text = format!(in rt.alloc(); "# ninja log v6\n0\t0\t0\t{file}\t0\n")?;
    file_is(&rt, log.as_str(), text.as_bytes())?;
    remove(&rt, folder);
    Ok(())
}

/// Checks that an output that isn't newer than ninja's log of depfiles stays out of date.
#[test]
fn old_output_stays_out_of_date(rt: HostRuntime) -> Result<(), Fail> {
    let folder = folder(&rt, "old_output_stays_out_of_date")?;
    let log = format!(in rt.alloc(); "{folder}/.ninja_log")?;
    let deps = format!(in rt.alloc(); "{folder}/.ninja_deps")?;
    let file = format!(in rt.alloc(); "{folder}/a")?;
    let command = format!(in rt.alloc(); "touch {file}; touch -r {file} {deps}")?;
    fs::write(&rt, log.as_str(), b"# ninja log v5\n".as_slice())?;
    let world = stricter_world_in(&rt, folder.as_str())?;
    made(&rt, rt.alloc(), &world, command.as_str(), file.as_str())?;
    drop(world);
    let text = format!(in rt.alloc(); "# ninja log v5\n0\t0\t0\t{file}\t0\n")?;
    file_is(&rt, log.as_str(), text.as_bytes())?;
    remove(&rt, folder);
    Ok(())
}

/// Checks that a folder in the place of the log changes nothing, and that a lost log is harmless.
#[test]
fn no_log(rt: HostRuntime) -> Result<(), Fail> {
    let folder = folder(&rt, "no_log")?;
    let log = format!(in rt.alloc(); "{folder}/.ninja_log")?;
    let file = format!(in rt.alloc(); "{folder}/a")?;
    let command = format!(in rt.alloc(); "touch {file}; rm -f {log}")?;
    fs::create_dir_all(&rt, log.as_str())?;
    let world = stricter_world_in(&rt, folder.as_str())?;
    made(&rt, rt.alloc(), &world, "true", file.as_str())?;
    fs::remove_dir_all(&rt, log.as_str())?;
    made(&rt, rt.alloc(), &world, "true", file.as_str())?;
    fs::write(&rt, log.as_str(), b"# ninja log v5\n".as_slice())?;
    made(&rt, rt.alloc(), &world, command.as_str(), file.as_str())?;
    drop(world);
    assert!(rt; fs::metadata(&rt, log.as_str()).is_err());
    remove(&rt, folder);
    Ok(())
}
