//! Parses manifests, as another crate would: the examples of the manual and of ninja's own tests, and refusals of each
//! kind.

use crate::outcome::value_of;
use plan_parse::*;
use plan_text::{Items, Piece, PieceList, TextFault};
use std::alloc::{AllocError, Global};
use std::test::Fail;

/// Appends the pieces of a text. Writes each reference as `<name>`.
fn spell(text: &mut Vec<u8>, pieces: &PieceList) -> Result<(), AllocError> {
    for piece in pieces.as_slice() {
        match piece {
            Piece::Literal(bytes) => text.extend_from_slice(bytes.as_slice())?,
            Piece::Reference(name) => {
                text.push(b'<')?;
                text.extend_from_slice(name.as_slice())?;
                text.push(b'>')?;
            }
        }
    }
    Ok(())
}

/// Checks whether the pieces spell a text.
fn spells(alloc: Global, pieces: &PieceList, want: &[u8]) -> Result<bool, AllocError> {
    let mut text = Vec::new(alloc);
    spell(&mut text, pieces)?;
    Ok(text.as_slice() == want)
}

/// Checks whether the paths of a list spell a text. Each path is followed by `;`.
fn lists(alloc: Global, paths: &Items<PieceList>, want: &[u8]) -> Result<bool, AllocError> {
    let mut text = Vec::new(alloc);
    for path in paths.as_slice() {
        spell(&mut text, path)?;
        text.push(b';')?;
    }
    Ok(text.as_slice() == want)
}

/// Checks whether bindings spell a text. Each binding is written as `name=value;`.
fn binds(alloc: Global, bindings: &[Binding], want: &[u8]) -> Result<bool, AllocError> {
    let mut text = Vec::new(alloc);
    for binding in bindings {
        text.extend_from_slice(binding.name.as_slice())?;
        text.push(b'=')?;
        spell(&mut text, &binding.value)?;
        text.push(b';')?;
    }
    Ok(text.as_slice() == want)
}

/// Appends the value of a binding that refers to its text.
fn spell_value(
    alloc: Global,
    text: &mut Vec<u8>,
    value: ValueInText<'_>,
) -> Result<(), AllocError> {
    match value {
        ValueInText::Plain(bytes) => text.extend_from_slice(bytes)?,
        ValueInText::Pieces(line) => spell(text, &line.read(alloc)?)?,
    }
    Ok(())
}

/// Checks whether the bindings of a build line spell a text. Each binding is written as `name=value;`.
fn binds_again(alloc: Global, block: &BindingsInText<'_>, want: &[u8]) -> Result<bool, AllocError> {
    let mut text = Vec::new(alloc);
    for binding in block.bindings {
        text.extend_from_slice(name_in(block.text, *binding))?;
        text.push(b'=')?;
        spell_value(alloc, &mut text, value_in(block.text, binding.value))?;
        text.push(b';')?;
    }
    Ok(text.as_slice() == want)
}

/// Appends a path part by part. Writes each reference as `<name>`, and `!` for a fault. Each part has at least one
/// byte, so there are no more parts than bytes.
fn spell_parts(text: &mut Vec<u8>, at: usize, path: &[u8]) -> Result<(), AllocError> {
    let mut rest = path;
    for _ in path {
        if rest.is_empty() {
            return Ok(());
        }
        let Ok((part, len)) = part_at(rest, at) else {
            text.push(b'!')?;
            return Ok(());
        };
        match part {
            PathPart::Text(bytes) => text.extend_from_slice(bytes)?,
            PathPart::Name(name) => {
                text.push(b'<')?;
                text.extend_from_slice(name)?;
                text.push(b'>')?;
            }
        }
        rest = rest.get(len..).unwrap_or(&[]);
    }
    Ok(())
}

/// Checks whether the paths of a list that refers to its text spell a text. Each path is followed by `;`.
fn lists_again(alloc: Global, paths: &PathsInText<'_>, want: &[u8]) -> Result<bool, AllocError> {
    let mut text = Vec::new(alloc);
    for path in paths.paths {
        match path_in(paths.text, *path) {
            PathInText::Plain(bytes) => text.extend_from_slice(bytes)?,
            PathInText::Parts(at, bytes) => spell_parts(&mut text, at, bytes)?,
        }
        text.push(b';')?;
    }
    Ok(text.as_slice() == want)
}

/// Returns the contents of a statement that is a directive, or `None` for another statement.
fn directive(statement: &CompactStatement) -> Option<&DirectiveKind> {
    match statement {
        CompactStatement::Directive(directive) => Some(&directive.kind),
        _ => None,
    }
}

/// Returns the fault of a text that is refused, or `None` if it is accepted.
fn refuse(alloc: Global, text: &[u8]) -> Option<ParseFault> {
    match parse(alloc, text) {
        Ok(_) => None,
        Err(fault) => Some(fault),
    }
}

#[test]
fn demo_rule(rt: HostRuntime) -> Result<(), Fail> {
    let text =
        b"rule demo\n  command = echo \"this is a demo of $foo\"\nbuild out: demo\n  foo = bar\n";
    let file = value_of(parse(rt.alloc(), text.as_slice()))?;
    let found = &file.statements;
    assert_eq!(rt; found.len(), 2);
    assert_eq!(rt; found[0].offset(&file.lists), 0);
    assert_eq!(rt; found[1].offset(&file.lists), 52);
    match directive(&found[0]) {
        Some(DirectiveKind::Rule(rule)) => {
            let want = b"command=echo \"this is a demo of <foo>\";";
            assert_eq!(rt; rule.name.as_slice(), b"demo".as_slice());
            assert!(rt; binds(rt.alloc(), rule.bindings.as_slice(), want)?);
        }
        _ => assert!(rt; false, "a rule comes first"),
    }
    Ok(())
}

#[test]
fn demo_build(rt: HostRuntime) -> Result<(), Fail> {
    let text = b"build out: demo\n  foo = bar\n  dir =  a\tb $foo$ c\n  none =\n".as_slice();
    let file = value_of(parse(rt.alloc(), text))?;
    let found = &file.statements;
    assert_eq!(rt; found.len(), 1);
    match &found[0] {
        CompactStatement::Build(number) => {
            let build = BuildLine::new(text, &file.lists, *number);
            let paths = build.paths();
            assert!(rt; lists_again(rt.alloc(), &paths.outputs, b"out;")?);
            assert_eq!(rt; build.rule(), b"demo".as_slice());
            assert!(rt; lists_again(rt.alloc(), &paths.inputs, b"")?);
            let want = b"foo=bar;dir=a\tb <foo> c;none=;";
            assert!(rt; binds_again(rt.alloc(), &build.bindings(), want)?);
        }
        _ => assert!(rt; false, "a build line"),
    }
    Ok(())
}

#[test]
fn quoted_paths(rt: HostRuntime) -> Result<(), Fail> {
    let text =
        b"spaced = foo bar\n\n# a comment\nbuild $spaced/baz other$ file: touch in$:1 $\n    in2\n".as_slice();
    let file = value_of(parse(rt.alloc(), text))?;
    let found = &file.statements;
    assert_eq!(rt; found.len(), 2);
    match (&found[0], &found[1]) {
        (CompactStatement::Binding(span), CompactStatement::Build(number)) => {
            let binding = BindingLine::new(text, *span).read(rt.alloc())?;
            let paths = BuildLine::new(text, &file.lists, *number).paths();
            assert_eq!(rt; binding.name.as_slice(), b"spaced".as_slice());
            assert!(rt; spells(rt.alloc(), &binding.value, b"foo bar")?);
            assert!(rt; lists_again(rt.alloc(), &paths.outputs, b"<spaced>/baz;other file;")?);
            assert!(rt; lists_again(rt.alloc(), &paths.inputs, b"in:1;in2;")?);
        }
        _ => assert!(rt; false, "a binding and a build line"),
    }
    Ok(())
}

#[test]
fn five_lists(rt: HostRuntime) -> Result<(), Fail> {
    let text = b"build foo.o $dir/foo.d | foo.su: cc foo.c | foo.h bar.h || generated\n".as_slice();
    let file = value_of(parse(rt.alloc(), text))?;
    let found = &file.statements;
    assert_eq!(rt; found.len(), 1);
    match &found[0] {
        CompactStatement::Build(number) => {
            let build = BuildLine::new(text, &file.lists, *number);
            let paths = build.paths();
            assert!(rt; lists_again(rt.alloc(), &paths.outputs, b"foo.o;<dir>/foo.d;")?);
            assert!(rt; lists_again(rt.alloc(), &paths.implicit_outputs, b"foo.su;")?);
            assert_eq!(rt; build.rule(), b"cc".as_slice());
            assert!(rt; lists_again(rt.alloc(), &paths.inputs, b"foo.c;")?);
            assert!(rt; lists_again(rt.alloc(), &paths.implicit_inputs, b"foo.h;bar.h;")?);
            assert!(rt; lists_again(rt.alloc(), &paths.order_only_inputs, b"generated;")?);
        }
        _ => assert!(rt; false, "a build line"),
    }
    Ok(())
}

#[test]
fn two_build_lines(rt: HostRuntime) -> Result<(), Fail> {
    let text =
        b"build a | b: one c\n  x = 1\n  y = 2\nz = 3\nbuild d: two e || f\n  x = $z\n".as_slice();
    let file = value_of(parse(rt.alloc(), text))?;
    let found = &file.statements;
    assert_eq!(rt; found.len(), 3);
    assert_eq!(rt; found[2].offset(&file.lists), 41);
    match (&found[0], &found[2]) {
        (CompactStatement::Build(first), CompactStatement::Build(second)) => {
            let first = BuildLine::new(text, &file.lists, *first);
            let second = BuildLine::new(text, &file.lists, *second);
            assert_eq!(rt; first.rule(), b"one".as_slice());
            assert_eq!(rt; second.rule(), b"two".as_slice());
            assert!(rt; lists_again(rt.alloc(), &first.paths().outputs, b"a;")?);
            assert!(rt; lists_again(rt.alloc(), &first.paths().implicit_outputs, b"b;")?);
            assert!(rt; lists_again(rt.alloc(), &first.paths().inputs, b"c;")?);
            assert!(rt; lists_again(rt.alloc(), &first.paths().order_only_inputs, b"")?);
            assert!(rt; lists_again(rt.alloc(), &second.paths().outputs, b"d;")?);
            assert!(rt; lists_again(rt.alloc(), &second.paths().inputs, b"e;")?);
            assert!(rt; lists_again(rt.alloc(), &second.paths().order_only_inputs, b"f;")?);
            assert!(rt; binds_again(rt.alloc(), &first.bindings(), b"x=1;y=2;")?);
            assert!(rt; binds_again(rt.alloc(), &second.bindings(), b"x=<z>;")?);
        }
        _ => assert!(rt; false, "two build lines"),
    }
    Ok(())
}

#[test]
fn parts(rt: HostRuntime) -> Result<(), Fail> {
    for (path, want) in [
        (b"$dir/foo.o".as_slice(), b"<dir>/foo.o".as_slice()),
        (b"a${b.c}d".as_slice(), b"a<b.c>d".as_slice()),
        (b"$b.c".as_slice(), b"<b>.c".as_slice()),
        (b"$$a$ b$:".as_slice(), b"$a b:".as_slice()),
        (b"a$\n   b$\r\n c".as_slice(), b"abc".as_slice()),
        (b"a b|c:".as_slice(), b"a b|c:".as_slice()),
        (b"a$!".as_slice(), b"a!".as_slice()),
    ] {
        let mut text = Vec::new(rt.alloc());
        spell_parts(&mut text, 0, path)?;
        assert_eq!(rt; text.as_slice(), want);
    }
    Ok(())
}

#[test]
fn refused_parts(rt: HostRuntime) {
    for (path, fault) in [
        (b"${a".as_slice(), TextFault::BadEscape(7)),
        (b"$".as_slice(), TextFault::BadEscape(7)),
        (b"\0".as_slice(), TextFault::NulByte(7)),
        (b"\t".as_slice(), TextFault::TabBlank(7)),
    ] {
        match part_at(path, 7) {
            Ok(_) => assert!(rt; false, "a fault"),
            Err(found) => assert!(rt; found == fault),
        }
    }
}

#[test]
fn pool(rt: HostRuntime) -> Result<(), Fail> {
    let file = value_of(parse(
        rt.alloc(),
        b"# one at a time\npool link_pool\n  depth = 4\n",
    ))?;
    let found = &file.statements;
    assert_eq!(rt; found.len(), 1);
    assert_eq!(rt; found[0].offset(&file.lists), 16);
    match directive(&found[0]) {
        Some(DirectiveKind::Pool(pool)) => {
            assert_eq!(rt; pool.name.as_slice(), b"link_pool".as_slice());
            assert!(rt; spells(rt.alloc(), &pool.depth, b"4")?);
        }
        _ => assert!(rt; false, "a pool"),
    }
    Ok(())
}

#[test]
fn defaults(rt: HostRuntime) -> Result<(), Fail> {
    let file = value_of(parse(rt.alloc(), b"third = c\ndefault a b\ndefault $third\n"))?;
    let found = &file.statements;
    assert_eq!(rt; found.len(), 3);
    match (directive(&found[1]), directive(&found[2])) {
        (Some(DirectiveKind::Default(two)), Some(DirectiveKind::Default(third))) => {
            assert!(rt; lists(rt.alloc(), two, b"a;b;")?);
            assert!(rt; lists(rt.alloc(), third, b"<third>;")?);
        }
        _ => assert!(rt; false, "two defaults"),
    }
    Ok(())
}

#[test]
fn other_files(rt: HostRuntime) -> Result<(), Fail> {
    let file = value_of(parse(
        rt.alloc(),
        b"include include.ninja\nsubninja $dir/test$ 1.ninja\n",
    ))?;
    let found = &file.statements;
    assert_eq!(rt; found.len(), 2);
    match (directive(&found[0]), directive(&found[1])) {
        (Some(DirectiveKind::Include(included)), Some(DirectiveKind::Subninja(scoped))) => {
            assert!(rt; spells(rt.alloc(), included, b"include.ninja")?);
            assert!(rt; spells(rt.alloc(), scoped, b"<dir>/test 1.ninja")?);
        }
        _ => assert!(rt; false, "an include and a subninja"),
    }
    Ok(())
}

#[test]
fn rule_variables(rt: HostRuntime) -> Result<(), Fail> {
    let text =
        b"rule cat\n  command = a\n  depfile = b\n  deps = c\n  msvc_deps_prefix = d\n  description = e\n  dyndep = f\n  generator = g\n  in = h\n  in_newline = i\n  out = j\n  restat = k\n  rspfile = l\n  rspfile_content = m\n  pool = n\n";
    let want =
        b"command=a;depfile=b;deps=c;msvc_deps_prefix=d;description=e;dyndep=f;generator=g;in=h;in_newline=i;out=j;restat=k;rspfile=l;rspfile_content=m;pool=n;";
    let file = value_of(parse(rt.alloc(), text.as_slice()))?;
    let found = &file.statements;
    assert_eq!(rt; found.len(), 1);
    match directive(&found[0]) {
        Some(DirectiveKind::Rule(rule)) => {
            assert!(rt; binds(rt.alloc(), rule.bindings.as_slice(), want)?);
        }
        _ => assert!(rt; false, "a rule"),
    }
    Ok(())
}

#[test]
fn refused_lines(rt: HostRuntime) {
    for (text, fault) in [
        (b"build a b".as_slice(), ParseFault::ExpectedColon(9)),
        (
            b"build a | b || c: r".as_slice(),
            ParseFault::ExpectedColon(12),
        ),
        (b"build | : r".as_slice(), ParseFault::ExpectedPath(8)),
        (b"build a: r b |@ c".as_slice(), ParseFault::Validation(13)),
        (b"default".as_slice(), ParseFault::ExpectedPath(7)),
        (b"default :a".as_slice(), ParseFault::ExpectedPath(8)),
        (b"include\n".as_slice(), ParseFault::ExpectedPath(7)),
        (b"subninja a b".as_slice(), ParseFault::ExpectedLineEnd(11)),
        (b"x y".as_slice(), ParseFault::ExpectedEquals(2)),
        (b"= y".as_slice(), ParseFault::ExpectedName(0)),
    ] {
        assert!(rt; refuse(rt.alloc(), text) == Some(fault));
    }
}

#[test]
fn refused_blocks(rt: HostRuntime) {
    for (text, fault) in [
        (b"x = 1\nrule r\n".as_slice(), ParseFault::NoCommand(6)),
        (
            b"rule r\n  command = a\n  command = b".as_slice(),
            ParseFault::NoCommand(23),
        ),
        (
            b"rule r\n  commnd = a\n  command = b".as_slice(),
            ParseFault::UnknownRuleVariable(9),
        ),
        (
            b"rule a b\n  command = a".as_slice(),
            ParseFault::ExpectedLineEnd(7),
        ),
        (
            b"x = 1\n  y = 2".as_slice(),
            ParseFault::UnexpectedIndent(8),
        ),
        (b"pool foo\n".as_slice(), ParseFault::BadPool(0)),
        (
            b"pool foo\n  bar = 1\n  depth = 1".as_slice(),
            ParseFault::BadPool(11),
        ),
        (
            b"pool foo\n  depth = 4\n  depth = 4".as_slice(),
            ParseFault::BadPool(23),
        ),
        (
            b"default a\n  b = 1".as_slice(),
            ParseFault::UnexpectedIndent(12),
        ),
    ] {
        assert!(rt; refuse(rt.alloc(), text) == Some(fault));
    }
}

#[test]
fn refused_bytes(rt: HostRuntime) {
    for (text, fault) in [
        (b"x = a$!".as_slice(), TextFault::BadEscape(5)),
        (b"rule r\n\tcommand = a".as_slice(), TextFault::TabBlank(7)),
        (b"include a\0".as_slice(), TextFault::NulByte(9)),
    ] {
        assert!(rt; refuse(rt.alloc(), text) == Some(ParseFault::Text(fault)));
    }
}

#[test]
fn fault_numbers(rt: HostRuntime) {
    for (fault, number) in [
        (ParseFault::ExpectedName(9), 10),
        (ParseFault::UnknownRuleVariable(9), 15),
        (ParseFault::BadPool(9), 17),
        (ParseFault::Validation(9), 18),
        (ParseFault::ExpectedLineEnd(9), 19),
        (ParseFault::Memory, 22),
        (ParseFault::Text(TextFault::BadEscape(9)), 3),
    ] {
        assert_eq!(rt; fault.number(), number);
    }
}
