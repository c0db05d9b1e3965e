//! Tests that a manifest has the same image whether one thread or several generate the codes of its many edges.

ghost use Rattle.std.specs.Prelude.{IfOk};
ghost use Rattle.plan_scope.specs.Sound.{IsSound};

use plan_compile::*;
use plan_graph::graph;
use plan_image::{CodeRef, Image, print_image};
use plan_scope::{Manifest, Source, SourceFault, evaluate, load, loaded_manifests_are_sound};
use plan_text::Counted;
use std::alloc::{AllocError, Global};
use std::test::Fail;
use std::thread::Threads;

/// Enough edges that they are split twice.
const EDGES: usize = 3_000;

/// A source that returns one text for each path.
#[derive(Drop)]
struct Text {
    bytes: Vec<u8>,
}

impl Source for Text {
    ghost gives = { λ _ _ _. Unit {0} };

    ghost fails = { λ _ _. ⊥ };

    ghost failures = { λ _. 0 };

    fn read(&mut self, alloc: Global, _path: &[u8]) -> Result<Vec<u8>, SourceFault> {
        match Vec::from_slice(alloc, self.bytes.as_slice()) {
            Ok(bytes) => Ok(bytes),
            Err(_) => Err(SourceFault::Memory),
        }
    }
}

/// Appends a build line whose edge has this many inputs.
fn push_edge(
    alloc: Global,
    text: &mut Vec<u8>,
    number: usize,
    inputs: usize,
) -> Result<(), AllocError> {
    text.extend_from_slice(b"build o")?;
    text.extend_from_slice(number.to_string(alloc)?.as_bytes())?;
    text.extend_from_slice(b": cc")?;
    for input in 0..inputs {
        text.extend_from_slice(b" i")?;
        text.extend_from_slice(input.to_string(alloc)?.as_bytes())?;
    }
    text.extend_from_slice(b"\n")?;
    Ok(())
}

/// Returns a manifest of edges with none to six inputs: those of the first quarter have none to two, and those of the
/// last one four to six. So each quarter has bodies that the quarter before it lacks, and shares others with it.
fn manifest_text(alloc: Global) -> Result<Vec<u8>, AllocError> {
    let mut text = Vec::from_slice(alloc, b"rule cc\n  command = cc $in -o $out\n")?;
    for number in 0..EDGES {
        push_edge(
            alloc,
            &mut text,
            number,
            4 * number / (EDGES - 1) + number % 3,
        )?;
    }
    Ok(text)
}

/// Loads and evaluates the manifest.
fn manifest(alloc: Global) -> Result<Manifest, Fail>
    ensures { IfOk result (λ manifest. IsSound manifest) }
{
    loaded_manifests_are_sound::<Text>();
    let bytes = manifest_text(alloc)?;
    let Ok(tree) = load(alloc, &mut Text { bytes }, b"build.ninja") else {
        return Err(Fail::from(AllocError));
    };
    match evaluate(alloc, &tree) {
        Ok(manifest) => Ok(manifest),
        Err(_) => Err(Fail::from(AllocError)),
    }
}

/// Returns the number of the body that an edge shares.
fn body_of(image: &Image, edge: usize) -> Option<u32> {
    match image.parts().edges.code(edge) {
        Some(CodeRef::Shared(body, _operands)) => Some(body),
        _ => None,
    }
}

/// What is compared of an image: its bytes, and the numbers of the bodies of four edges.
#[derive(Drop)]
struct Compared {
    bytes: Vec<u8>,
    bodies: [Option<u32>; 4],
}

/// Returns what is compared of an image.
fn parts_of(alloc: Global, image: &Image) -> Result<Compared, Fail> {
    let mut room = Vec::new(alloc);
    let mut out = Counted::new(Vec::new(alloc));
    if print_image(image, &mut room, &mut out).is_err() {
        return Err(Fail::from(AllocError));
    }
    Ok(Compared {
        bytes: out.into_writer(),
        bodies: [
            body_of(image, 0),
            body_of(image, 2),
            body_of(image, EDGES - 2),
            body_of(image, EDGES - 1),
        ],
    })
}

/// Returns what is compared of the image that one thread compiles.
fn by_one(alloc: Global, manifest: &Manifest) -> Result<Compared, Fail>
    requires { IsSound manifest.now }
{
    let Ok(graph) = graph(alloc, manifest) else {
        return Err(Fail::from(AllocError));
    };
    match compile(alloc, manifest, &graph, OutOfDateRule::Stricter) {
        Ok(image) => parts_of(alloc, &image),
        Err(_) => Err(Fail::from(AllocError)),
    }
}

/// Returns what is compared of the image that several threads compile.
fn by_several<R: Threads + Sync>(
    rt: &R,
    alloc: Global,
    manifest: &Manifest,
) -> Result<Compared, Fail>
    requires { IsSound manifest.now }
{
    let Ok(graph) = graph(alloc, manifest) else {
        return Err(Fail::from(AllocError));
    };
    let names = collect_names(alloc, manifest);
    match compile_with(rt, alloc, manifest, &graph, names, OutOfDateRule::Stricter) {
        Ok(image) => parts_of(alloc, &image),
        Err(_) => Err(Fail::from(AllocError)),
    }
}

/// Checks that both images are the same, and that bodies are numbered in the order of first use.
#[test]
fn halves_are_joined(rt: HostRuntime) -> Result<(), Fail> {
    let alloc = rt.alloc();
    let manifest = manifest(alloc)?;
    let one = by_one(alloc, &manifest)?;
    let several = by_several(&rt, alloc, &manifest)?;
    assert_eq!(&rt; several.bytes.as_slice(), one.bytes.as_slice());
    assert_eq!(&rt; several.bodies, [Some(0), Some(2), Some(4), Some(6)]);
    Ok(())
}
