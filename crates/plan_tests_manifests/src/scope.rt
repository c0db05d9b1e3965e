//! Calls each public function of plan_scope on files and trees, as another crate would.

use plan_scope::*;
use plan_text::{Counted, RowList};
use std::alloc::{AllocError, Global};
use std::test::Fail;

/// A source of a few files.
#[derive(Drop)]
struct Files;

/// Returns the bytes of a file, or `None` if the source doesn't have it.
fn bytes_of(path: &[u8]) -> Option<&'static [u8]> {
    if path == b"build.ninja".as_slice() {
        return Some(b"x = 1\ninclude a.ninja\nsubninja b.ninja\ny = $x\n");
    }
    if path == b"a.ninja".as_slice() {
        return Some(b"z = 2\n");
    }
    if path == b"b.ninja".as_slice() {
        return Some(b"x = 3\ninclude a.ninja\n");
    }
    if path == b"two.ninja".as_slice() {
        return Some(b"subninja one.ninja\nsubninja a.ninja\n");
    }
    if path == b"one.ninja".as_slice() {
        return Some(b"subninja a.ninja\n");
    }
    if path == b"by_name.ninja".as_slice() {
        return Some(b"p = a\ninclude $p.ninja\n");
    }
    if path == b"no_file.ninja".as_slice() {
        return Some(b"x = 1\nsubninja none.ninja\n");
    }
    if path == b"no_path.ninja".as_slice() {
        return Some(b"x = 1\ninclude $none\n");
    }
    if path == b"parent.ninja".as_slice() {
        return Some(b"include no_path.ninja\n");
    }
    if path == b"itself.ninja".as_slice() {
        return Some(b"include itself.ninja\n");
    }
    if path == b"no_statement.ninja".as_slice() {
        return Some(b"include wrong.ninja\n");
    }
    if path == b"wrong.ninja".as_slice() {
        return Some(b"?\n");
    }
    None
}

impl Source for Files {
    ghost gives = { λ _ _ _. Unit {0} };

    ghost fails = { λ _ _. ⊥ };

    ghost failures = { λ _. 0 };

    fn read(&mut self, alloc: Global, path: &[u8]) -> Result<Vec<u8>, SourceFault> {
        let Some(text) = bytes_of(path) else {
            return Err(SourceFault::Missing);
        };
        let mut bytes = Vec::new(alloc);
        match bytes.extend_from_slice(text) {
            Ok(()) => Ok(bytes),
            Err(_) => Err(SourceFault::Memory),
        }
    }
}

/// Checks whether the tree of a file has this number of statements.
fn has_statements(alloc: Global, path: &[u8], count: usize) -> bool {
    match load(alloc, &mut Files, path) {
        Ok(tree) => {
            let front = tree.statements().take(count).count();
            front == count && tree.statements().nth(count).is_none()
        }
        Err(_) => false,
    }
}

/// Checks whether a statement of the tree of a file has this path and offset, and sees these scopes.
fn is_at(
    alloc: Global,
    tree: &[u8],
    index: usize,
    path: &[u8],
    offset: u64,
    scopes: &[usize],
) -> bool {
    let Ok(tree) = load(alloc, &mut Files, tree) else {
        return false;
    };
    match tree.statements().nth(index) {
        Some(statement) => statement.path() == path
            && statement.offset() == offset
            && statement.scopes() == scopes,
        None => false,
    }
}

/// Checks whether a file is refused at this place for this cause.
fn is_refused(alloc: Global, path: &[u8], at: &[u8], offset: u64, cause: Cause) -> bool {
    match load(alloc, &mut Files, path) {
        Err(ScopeFault::Refused(file, place, why)) => {
            file.as_slice() == at && place == offset && why == cause
        }
        _ => false,
    }
}

#[test]
fn all_statements(rt: HostRuntime) -> Result<(), Fail> {
    assert!(rt; has_statements(rt.alloc(), b"build.ninja", 5));
    Ok(())
}

#[test]
fn included_statement(rt: HostRuntime) -> Result<(), Fail> {
    assert!(rt; is_at(rt.alloc(), b"build.ninja", 1, b"a.ninja", 0, &[0]));
    Ok(())
}

/// Checks that each file opens a scope of its own, although the only statement of the first one includes another file.
#[test]
fn scopes_of_two_subninja_files(rt: HostRuntime) -> Result<(), Fail> {
    assert!(rt; has_statements(rt.alloc(), b"two.ninja", 2));
    assert!(rt; is_at(rt.alloc(), b"two.ninja", 0, b"a.ninja", 0, &[2, 1, 0]));
    assert!(rt; is_at(rt.alloc(), b"two.ninja", 1, b"a.ninja", 0, &[3, 0]));
    Ok(())
}

#[test]
fn statement_of_subninja(rt: HostRuntime) -> Result<(), Fail> {
    assert!(rt; is_at(rt.alloc(), b"build.ninja", 2, b"b.ninja", 0, &[1, 0]));
    Ok(())
}

#[test]
fn statement_included_by_subninja(rt: HostRuntime) -> Result<(), Fail> {
    assert!(rt; is_at(rt.alloc(), b"build.ninja", 3, b"a.ninja", 0, &[1, 0]));
    Ok(())
}

#[test]
fn statement_behind_subninja(rt: HostRuntime) -> Result<(), Fail> {
    assert!(rt; is_at(rt.alloc(), b"build.ninja", 4, b"build.ninja", 39, &[0]));
    Ok(())
}

#[test]
fn path_by_name(rt: HostRuntime) -> Result<(), Fail> {
    assert!(rt; is_at(rt.alloc(), b"by_name.ninja", 1, b"a.ninja", 0, &[0]));
    Ok(())
}

#[test]
fn empty_path(rt: HostRuntime) -> Result<(), Fail> {
    assert!(rt;
        is_refused(
            rt.alloc(),
            b"parent.ninja",
            b"no_path.ninja",
            6,
            Cause::EmptyPath
        )
    );
    Ok(())
}

#[test]
fn file_in_itself(rt: HostRuntime) -> Result<(), Fail> {
    assert!(rt;
        is_refused(
            rt.alloc(),
            b"itself.ninja",
            b"itself.ninja",
            0,
            Cause::IncludeDepth
        )
    );
    Ok(())
}

#[test]
fn missing_file(rt: HostRuntime) -> Result<(), Fail> {
    match load(rt.alloc(), &mut Files, b"no_file.ninja") {
        Err(ScopeFault::SourceMissing(path)) => {
            assert_eq!(rt; path.as_slice(), b"none.ninja".as_slice());
        }
        _ => panic!(rt; "no missing file"),
    }
    Ok(())
}

#[test]
fn no_statement(rt: HostRuntime) -> Result<(), Fail> {
    match load(rt.alloc(), &mut Files, b"no_statement.ninja") {
        Err(ScopeFault::Parse(path, _)) => {
            assert_eq!(rt; path.as_slice(), b"wrong.ninja".as_slice());
        }
        _ => panic!(rt; "statements"),
    }
    Ok(())
}

/// A source that returns this file for each path.
#[derive(Drop)]
struct OneFile(&'static [u8]);

impl Source for OneFile {
    ghost gives = { λ _ _ _. Unit {0} };

    ghost fails = { λ _ _. ⊥ };

    ghost failures = { λ _. 0 };

    fn read(&mut self, alloc: Global, _path: &[u8]) -> Result<Vec<u8>, SourceFault> {
        Vec::from_slice(alloc, self.0).map_err(|_| SourceFault::Memory)
    }
}

/// Loads and evaluates a manifest.
fn meaning(alloc: Global, text: &'static [u8]) -> Result<Manifest, ScopeFault> {
    let tree = load(alloc, &mut OneFile(text), b"build.ninja")?;
    evaluate(alloc, &tree)
}

/// Checks whether a manifest has these commands.
fn has_commands(alloc: Global, manifest: &Manifest, wanted: &[u8]) -> bool {
    let mut out = Counted::new(Vec::new(alloc));
    write_commands(manifest, &mut out).is_ok() && out.into_writer().as_slice() == wanted
}

/// Checks whether a text has a manifest with these commands.
fn prints(alloc: Global, text: &'static [u8], wanted: &[u8]) -> bool {
    match meaning(alloc, text) {
        Ok(manifest) => has_commands(alloc, &manifest, wanted),
        Err(_) => false,
    }
}

/// A source of a file that includes another file three times. The other file changes before it is read the third time.
#[derive(Drop)]
struct Changing {
    /// The number of times that the other file was read.
    reads: usize,
}

impl Source for Changing {
    ghost gives = { λ _ _ _. Unit {0} };

    ghost fails = { λ _ _. ⊥ };

    ghost failures = { λ _. 0 };

    fn read(&mut self, alloc: Global, path: &[u8]) -> Result<Vec<u8>, SourceFault> {
        let mut text =
            b"rule r\n  command = make $out\ninclude f\ninclude f\ninclude f\n".as_slice();
        if path == b"f".as_slice() {
            text = match self.reads {
                0 => b"build a: r\n".as_slice(),
                1 => b"build a: r\n".as_slice(),
                _ => b"build b: r\n".as_slice(),
            };
            self.reads = self.reads.saturating_add(1);
        }
        Vec::from_slice(alloc, text).map_err(|_| SourceFault::Memory)
    }
}

/// Checks that a file with the same contents as before is shared, and that a changed file is parsed again.
#[test]
fn file_that_changes_between_two_reads(rt: HostRuntime) {
    let meant = match load(rt.alloc(), &mut Changing { reads: 0 }, b"build.ninja") {
        Ok(tree) => evaluate(rt.alloc(), &tree),
        Err(fault) => Err(fault),
    };
    match meant {
        Ok(manifest) => {
            assert!(rt; has_commands(rt.alloc(), &manifest, b"make a\nmake a\nmake b\n"));
        }
        Err(_) => panic!(rt; "no manifest"),
    }
}

/// Returns the only edge of a manifest, or `None` if it doesn't have exactly one.
fn only_edge(manifest: &Manifest) -> Option<EdgeRef<'_>> {
    if manifest.edges.len() != 1 {
        return None;
    }
    Some(manifest.edges.edge(0))
}

/// Checks whether a list has only this path.
fn is_only<'a>(paths: &PathRange<'a>, wanted: &[u8]) -> bool {
    paths.len() == 1 && paths.path(0) == wanted
}

/// Checks whether a text of an edge has these bytes.
fn is_text(alloc: Global, text: &EdgeText<'_>, wanted: &[u8]) -> bool {
    match text.join(alloc) {
        Ok(joined) => joined.as_slice() == wanted && text.is_empty() == wanted.is_empty(),
        Err(_) => false,
    }
}

#[test]
fn demo(rt: HostRuntime) {
    let text =
        b"rule demo\n  command = echo \"this is a demo of $foo\"\nbuild out: demo\n  foo = bar\n";
    assert!(rt; prints(rt.alloc(), text, b"echo \"this is a demo of bar\"\n"));
}

#[test]
fn quoted_paths(rt: HostRuntime) {
    let text = b"spaced = foo bar\nrule t\n  command = touch $out\nbuild $spaced/baz it's: t\n";
    assert!(rt; prints(rt.alloc(), text, b"touch 'foo bar/baz' 'it'\\''s'\n"));
}

#[test]
fn phonies_are_not_printed(rt: HostRuntime) {
    let text = b"rule r\n  command = $in_newline\nbuild a: phony b\nbuild b: r c d | e\n";
    assert!(rt; prints(rt.alloc(), text, b"c\nd\n"));
}

#[test]
fn many_variables_of_a_block(rt: HostRuntime) {
    let text =
        b"rule r\n  command = $a $b $c $d $e $f $g $h $i $j\nbuild o: r\n  a = 1\n  b = 2\n  c = 3\n  d = 4\n  e = 5\n  f = 6\n  g = 7\n  h = 8\n  i = 9\n  j = 10\n  a = 11\n  i = 12\n";
    assert!(rt; prints(rt.alloc(), text, b"11 2 3 4 5 6 7 8 12 10\n"));
}

#[test]
fn rules_of_one_edge_and_of_three(rt: HostRuntime) {
    let text =
        b"flags = -g\nrule once\n  command = list $in > $out\nrule thrice\n  command = cc $flags -D$name -c $in -o $out\nbuild a: once x\nbuild b: thrice b.c\nbuild c: thrice c.c\n  name = C\nbuild d: thrice d.c\n  flags = -O2\n";
    let wanted =
        b"list x > a\ncc -g -D -c b.c -o b\ncc -g -DC -c c.c -o c\ncc -O2 -D -c d.c -o d\n";
    assert!(rt; prints(rt.alloc(), text, wanted));
}

#[test]
fn lists_of_an_edge(rt: HostRuntime) -> Result<(), Fail> {
    let text = b"rule r\n  command = c\nbuild ./a | b//c: r d | e/../f || g\n";
    let Ok(manifest) = meaning(rt.alloc(), text) else {
        panic!(rt; "no manifest");
    };
    let Some(edge) = only_edge(&manifest) else {
        panic!(rt; "not one edge");
    };
    assert!(rt; is_only(&edge.outputs(), b"a"));
    assert!(rt; is_only(&edge.implicit_outputs(), b"b/c"));
    assert!(rt; is_only(&edge.inputs(), b"d"));
    assert!(rt; is_only(&edge.implicit_inputs(), b"f"));
    assert!(rt; is_only(&edge.order_only_inputs(), b"g"));
    assert!(rt; is_text(rt.alloc(), &edge.command(), b"c"));
    Ok(())
}

#[test]
fn texts_of_an_edge(rt: HostRuntime) -> Result<(), Fail> {
    let text =
        b"pool p\n  depth = 3\nrule r\n  command = c\n  description = D $out\n  depfile = $out.d\n  deps = gcc\n  restat = 1\n  pool = p\nbuild a$ b: r\n";
    let Ok(manifest) = meaning(rt.alloc(), text) else {
        panic!(rt; "no manifest");
    };
    let Some(edge) = only_edge(&manifest) else {
        panic!(rt; "not one edge");
    };
    assert!(rt; is_text(rt.alloc(), &edge.description(), b"D 'a b'"));
    assert!(rt; is_text(rt.alloc(), &edge.depfile(), b"a b.d"));
    assert!(rt; is_text(rt.alloc(), &edge.pool(), b"p"));
    assert!(rt; edge.has_deps() && edge.has_restat() && !edge.is_generator() && !edge.is_phony());
    Ok(())
}

#[test]
fn depfile_that_stands_for_itself(rt: HostRuntime) -> Result<(), Fail> {
    let text =
        b"rule r\n  command = c\n  depfile = $out.d\n  deps = $none\n  restat = 1\nbuild a: r\n";
    let Ok(manifest) = meaning(rt.alloc(), text) else {
        panic!(rt; "no manifest");
    };
    let Some(edge) = only_edge(&manifest) else {
        panic!(rt; "not one edge");
    };
    assert!(rt; is_text(rt.alloc(), &edge.depfile(), b"a.d"));
    assert!(rt; edge.has_restat() && !edge.has_deps());
    Ok(())
}

/// A source of one file. Its two edges use the same variable of 40,000 bytes.
#[derive(Drop)]
struct LongVariable;

/// Returns the contents of the file.
fn long_variable(alloc: Global) -> Result<Vec<u8>, AllocError> {
    let mut text = Vec::from_slice(alloc, b"v =")?;
    for number in 0..8_000u32 {
        text.extend_from_slice(b" -I")?;
        text.push(97 + (number.wrapping_mul(number) / 7 % 26) as u8)?;
        text.push(97 + (number % 26) as u8)?;
    }
    text.extend_from_slice(b"\nrule r\n  command = $out $v $in\n")?;
    text.extend_from_slice(b"build a: r b\nbuild long/name: r c d\n")?;
    Ok(text)
}

impl Source for LongVariable {
    ghost gives = { λ _ _ _. Unit {0} };

    ghost fails = { λ _ _. ⊥ };

    ghost failures = { λ _. 0 };

    fn read(&mut self, alloc: Global, _path: &[u8]) -> Result<Vec<u8>, SourceFault> {
        long_variable(alloc).map_err(|_| SourceFault::Memory)
    }
}

/// Loads and evaluates the file.
fn long_commands(alloc: Global) -> Result<Manifest, Fail> {
    let meant = match load(alloc, &mut LongVariable, b"build.ninja") {
        Ok(tree) => evaluate(alloc, &tree),
        Err(fault) => Err(fault),
    };
    match meant {
        Ok(manifest) => Ok(manifest),
        Err(_) => Err(Fail::new("no manifest")),
    }
}

/// Returns the second one of two edges, or `None` if the manifest doesn't have two.
fn second_edge(manifest: &Manifest) -> Option<EdgeRef<'_>> {
    if manifest.edges.len() != 2 {
        return None;
    }
    Some(manifest.edges.edge(1))
}

#[test]
fn long_text_has_several_parts(rt: HostRuntime) -> Result<(), Fail> {
    let manifest = long_commands(rt.alloc())?;
    let Some(edge) = second_edge(&manifest) else {
        panic!(rt; "not two edges");
    };
    let command = edge.command();
    assert!(rt; command.len() > 8);
    assert!(rt; !command.is_empty());
    assert!(rt; !command.part(1).is_empty());
    Ok(())
}

#[test]
fn long_text_is_joined(rt: HostRuntime) -> Result<(), Fail> {
    let manifest = long_commands(rt.alloc())?;
    let Some(edge) = second_edge(&manifest) else {
        panic!(rt; "not two edges");
    };
    let command = edge.command();
    let joined = command.join(rt.alloc())?;
    let text = joined.as_slice();
    assert_eq!(rt; text.len(), 40_013);
    assert!(rt; text.starts_with(b"long/name -Iaa"));
    assert!(rt; text.ends_with(b" c d"));
    assert!(rt; command.part(command.len()).is_empty());
    let mut out = Counted::new(Vec::new(rt.alloc()));
    assert!(rt; write_text(&command, &mut out).is_ok());
    assert!(rt; out.into_writer().as_slice() == text);
    Ok(())
}

#[test]
fn pools_and_defaults(rt: HostRuntime) -> Result<(), Fail> {
    let text = b"build a: phony\ndefault ./a\npool p\n  depth = 1000000\n";
    let Ok(manifest) = meaning(rt.alloc(), text) else {
        panic!(rt; "no manifest");
    };
    match manifest.pools.as_slice() {
        [console, pool] => {
            assert_eq!(rt; console.name.as_slice(), b"console".as_slice());
            assert_eq!(rt; console.depth, 1);
            assert_eq!(rt; pool.name.as_slice(), b"p".as_slice());
            assert_eq!(rt; pool.depth, 1_000_000);
        }
        _ => panic!(rt; "not two pools"),
    }
    match manifest.defaults.as_slice() {
        [target] => {
            assert_eq!(rt; target.path.as_slice(), b"a".as_slice());
            assert_eq!(rt; target.edges_above, 1);
        }
        _ => panic!(rt; "not one default"),
    }
    Ok(())
}

#[test]
fn unknown_pool(rt: HostRuntime) -> Result<(), Fail> {
    let text = b"pool p\n  depth = 4\nrule r\n  command = true\n  pool = q\nbuild a: r\n";
    match meaning(rt.alloc(), text) {
        Err(ScopeFault::Refused(path, offset, cause)) => {
            assert_eq!(rt; path.as_slice(), b"build.ninja".as_slice());
            assert_eq!(rt; offset, 54);
            assert!(rt; cause == Cause::UnknownPool);
        }
        _ => panic!(rt; "a pool was taken"),
    }
    Ok(())
}

#[test]
fn numbers_of_causes(rt: HostRuntime) {
    for (cause, number) in [
        (Cause::IncludeDepth, 21),
        (Cause::DuplicateRule, 30),
        (Cause::UnknownPool, 33),
        (Cause::DepsKind, 38),
        (Cause::BadDepth, 42),
    ] {
        assert_eq!(rt; cause.number(), number);
    }
}

#[test]
fn numbers_of_faults(rt: HostRuntime) {
    assert_eq!(rt; ScopeFault::LoadMemory.number(), 22);
    assert_eq!(rt; ScopeFault::Memory.number(), 41);
}

/// Returns an addition to an edge, of an output, an input and an order-only input.
fn addition_to(alloc: Global, edge: u32) -> Result<Addition, AllocError> {
    let mut addition = Addition {
        edge,
        outputs: RowList::new(alloc),
        inputs: RowList::new(alloc),
        order_only: RowList::new(alloc),
    };
    addition.outputs.push(b"more_output")?;
    addition.inputs.push(b"more_input")?;
    addition.order_only.push(b"more_order_only")?;
    Ok(addition)
}

/// Checks whether a list has these two paths.
fn are_both(paths: &PathRange<'_>, first: &[u8], second: &[u8]) -> bool {
    paths.len() == 2 && paths.path(0) == first && paths.path(1) == second
}

/// Checks whether each list of an edge that additions change has one path more.
fn has_addition(edge: &EdgeRef<'_>) -> bool {
    is_only(&edge.outputs(), b"a")
        && are_both(&edge.implicit_outputs(), b"b", b"more_output")
        && is_only(&edge.inputs(), b"d")
        && are_both(&edge.implicit_inputs(), b"e", b"more_input")
        && are_both(&edge.order_only_inputs(), b"f", b"more_order_only")
}

/// Adds to the first edge of a manifest, and to an edge that it doesn't have.
fn extend(alloc: Global, manifest: &mut Manifest) -> Result<(), AllocError> {
    manifest.extend(alloc, &addition_to(alloc, 0)?)?;
    manifest.extend_all(alloc, &[addition_to(alloc, 2)?])
}

#[test]
fn extended_edge(rt: HostRuntime) -> Result<(), Fail> {
    let text = b"rule r\n  command = $in $out\nbuild a | b: r d | e || f\nbuild x: r y\n";
    let Ok(mut manifest) = meaning(rt.alloc(), text) else {
        panic!(rt; "no manifest");
    };
    extend(rt.alloc(), &mut manifest)?;
    assert_eq!(rt; manifest.edges.len(), 2);
    assert!(rt; has_addition(&manifest.edges.edge(0)));
    assert!(rt; is_only(&manifest.edges.edge(1).outputs(), b"x"));
    assert_eq!(rt; manifest.edges.edge(1).order_only_inputs().len(), 0);
    assert!(rt; has_commands(rt.alloc(), &manifest, b"d a\ny x\n"));
    Ok(())
}
