//! The texts of small builds, written by hand.

use crate::numbers::Numbers;
use crate::pace::{recent_rate, times_then};
use crate::template::template_text;
use crate::{BuildLines, Display, Outputs, Stopwatch, Style, unknown_placeholder};
use plan_image::{Edge, EdgeCode, Edges, Image, Instr, Parts, Pool, Sort};
use plan_machine::{Cause, Mark};
use plan_status::Format;
use plan_text::{Items, RowList};
use plan_verify::{Verified, verify};
use std::alloc::{AllocError, Global};
use std::test::Fail;

/// Outputs of which only the one of the edge with this first output says anything.
#[derive(Drop)]
struct Warning {
    alloc: Global,
    edge: &'static [u8],
}

impl Outputs for Warning {
    ghost taken = { λ _ _ _. Unit {0} };

    fn take(&self, edge: &[u8]) -> Option<Vec<u8>> {
        if edge != self.edge {
            return None;
        }
        match Vec::from_slice(self.alloc, b"warning\n".as_slice()) {
            Ok(output) => Some(output),
            Err(_) => None,
        }
    }

    fn begin_console(&self, _edge: &[u8], _text: &[u8]) {}
}

impl Stopwatch for Warning {
    ghost showed = { λ _ _. Unit {0} };

    fn elapsed(&self) -> u64 {
        1041
    }
}

/// Returns an edge that runs a text.
fn edge_of(
    alloc: Global,
    rank: u32,
    label: u32,
    command: u32,
    outputs: &[u32],
    waits: &[u32],
) -> Result<Edge, AllocError> {
    let code = [
        Instr::Take,
        Instr::Text(command),
        Instr::Run,
        Instr::Release,
        Instr::End,
    ];
    Ok(Edge {
        sort: Sort::Command,
        pool: Some(0),
        rank,
        label,
        outputs: Items::new(Vec::from_slice(alloc, outputs)?),
        waits: Items::new(Vec::from_slice(alloc, waits)?),
        code: EdgeCode::Own(Items::new(Vec::from_slice(alloc, code.as_slice())?)),
    })
}

fn rows_of(alloc: Global, texts: &[&[u8]]) -> Result<RowList<u8>, AllocError> {
    let mut rows = RowList::new(alloc);
    for text in texts {
        rows.push(text)?;
    }
    Ok(rows)
}

/// Returns the parts of an image of two edges, which have a pool of this name.
fn parts_of(alloc: Global, pool: &[u8]) -> Result<Parts, AllocError> {
    let mut edges = Edges::new(alloc);
    edges.push(alloc, &edge_of(alloc, 0, 0, 1, &[0], &[])?)?;
    edges.push(alloc, &edge_of(alloc, 1, 2, 3, &[1, 2], &[0])?)?;
    let mut pools = Vec::new(alloc);
    let name = Items::new(Vec::from_slice(alloc, pool)?);
    pools.push(Pool { name, depth: 1 })?;
    Ok(Parts {
        texts: rows_of(
            alloc,
            &[
                b"CC a.o".as_slice(),
                b"cc -c a.c",
                b"LINK app",
                b"ld -o app a.o",
            ],
        )?,
        files: rows_of(alloc, &[b"a.o".as_slice(), b"app", b"app.map", b"a.c"])?,
        pools: Items::new(pools),
        slots: Items::empty(alloc),
        bodies: None,
        edges,
        defaults: Items::new(Vec::from_slice(alloc, [1u32].as_slice())?),
    })
}

fn image_of(alloc: Global, pool: &[u8]) -> Option<Verified> {
    let Ok(parts) = parts_of(alloc, pool) else {
        return None;
    };
    let Ok(image) = Image::new(parts) else {
        return None;
    };
    match verify(alloc, image) {
        Ok(verified) => Some(verified),
        Err(_) => None,
    }
}

fn in_pipe(style: Style) -> Display<'static> {
    Display {
        style,
        on_terminal: false,
        colours: false,
        template: b"[%f/%t] ",
        width: 0,
    }
}

fn on_terminal(style: Style) -> Display<'static> {
    Display {
        style,
        on_terminal: true,
        colours: true,
        template: b"[%f/%t] ",
        width: 0,
    }
}

/// Returns the text of these marks, of which `edge` has an output.
fn text_of(
    alloc: Global,
    display: Display<'_>,
    edge: &'static [u8],
    marks: &[Mark],
) -> Result<Vec<u8>, AllocError> {
    text_in(alloc, b"link", display, edge, marks)
}

/// Returns the text of these marks, of which `edge` has an output, if the edges have this pool.
fn text_in(
    alloc: Global,
    pool: &[u8],
    display: Display<'_>,
    edge: &'static [u8],
    marks: &[Mark],
) -> Result<Vec<u8>, AllocError> {
    let Some(image) = image_of(alloc, pool) else {
        return Err(AllocError);
    };
    let outputs = Warning { alloc, edge };
    let mut format = BuildLines::new(alloc, &outputs, display);
    format.begin();
    let mut text = Vec::new(alloc);
    for mark in marks {
        let line = format.line(alloc, &image, 2, *mark)?;
        text.extend_from_slice(&line)?;
    }
    Ok(text)
}

/// A command's output comes after its label.
#[test]
fn output_after_its_label(rt: HostRuntime) -> Result<(), Fail> {
    let marks = [Mark::Took(0), Mark::Ended(0, true), Mark::Ended(1, true)];
    let text = text_of(rt.alloc(), in_pipe(Style::Labels), b"a.o", &marks)?;
    assert_eq!(rt;
        text.as_slice(),
        b"[1/2] CC a.o\nwarning\n[2/2] LINK app\n".as_slice()
    );
    Ok(())
}

/// A template's placeholders are numbers of commands. The command whose end is shown still counts as running.
#[test]
fn numbers_by_a_template(rt: HostRuntime) -> Result<(), Fail> {
    let display = Display {
        style: Style::Labels,
        on_terminal: false,
        colours: false,
        template: b"%s/%t %p%% %r %u %f %e %o %c: ",
        width: 0,
    };
    let marks = [
        Mark::Took(0),
        Mark::Took(1),
        Mark::Ended(0, true),
        Mark::Ended(1, true),
    ];
    let text = text_of(rt.alloc(), display, b"", &marks)?;
    assert_eq!(rt;
        text.as_slice(),
        b"2/2  50%% 2 0 1 1.041 1.0 ?: CC a.o\n2/2 100%% 1 0 2 1.041 1.9 ?: LINK app\n".as_slice()
    );
    Ok(())
}

/// Returns the times of a template when this many of eight commands have finished.
fn times_at(alloc: Global, finished: u64, elapsed: u64) -> Result<Vec<u8>, AllocError> {
    let numbers = Numbers {
        started: 8,
        total: 8,
        running: 0,
        finished,
        elapsed,
        recent: None,
    };
    template_text(alloc, b"%e %w %E %W%P", numbers)
}

/// The time that is left is predicted from the commands that have finished. Both clocks show hours if one must.
#[test]
fn times_by_a_template(rt: HostRuntime) -> Result<(), Fail> {
    let text = times_at(rt.alloc(), 0, 61500)?;
    assert_eq!(rt; text.as_slice(), b"61.500 01:01 ? ?  0%".as_slice());
    let text = times_at(rt.alloc(), 3, 1000)?;
    assert_eq!(rt; text.as_slice(), b"1.000 00:01 1.666 00:01 37%".as_slice());
    let text = times_at(rt.alloc(), 2, 1800000)?;
    assert_eq!(rt;
        text.as_slice(),
        b"1800.000 0:30:00 5400.000 1:30:00 25%".as_slice()
    );
    let text = times_at(rt.alloc(), 8, 3599999)?;
    assert_eq!(rt;
        text.as_slice(),
        b"3599.999 59:59 0.000 00:00100%".as_slice()
    );
    Ok(())
}

/// The rate of the last commands is their number, divided by the time from the first of them to the last.
#[test]
fn rate_of_the_last_commands(rt: HostRuntime) -> Result<(), Fail> {
    assert_eq!(rt; recent_rate(&[])?, None);
    assert_eq!(rt; recent_rate(&[1000, 1000])?, None);
    assert_eq!(rt; recent_rate(&[1000, 1000, 3000])?, Some(15));
    Ok(())
}

/// If there are eight times already, the oldest one is dropped. A mark without a command of its own has no time.
#[test]
fn eight_times_are_kept(rt: HostRuntime) -> Result<(), Fail> {
    let alloc = rt.alloc();
    let Some(image) = image_of(alloc, b"link") else {
        return Err(Fail::from(AllocError));
    };
    let times = [1, 2, 3, 4, 5, 6, 7, 8];
    let all = times_then(alloc, image.image(), &times, Mark::Ended(0, true), 9)?;
    assert_eq!(rt; all.as_slice(), [2, 3, 4, 5, 6, 7, 8, 9].as_slice());
    let all = times_then(alloc, image.image(), &[1], Mark::Took(0), 9)?;
    assert_eq!(rt; all.as_slice(), [1].as_slice());
    Ok(())
}

/// The first unknown placeholder is found. A percent sign at the end is followed by 0.
#[test]
fn unknown_placeholder_is_found(rt: HostRuntime) -> Result<(), Fail> {
    assert_eq!(rt;
        unknown_placeholder(b"[%f/%t %% %e %o %c %E %w %W %P]x"),
        None
    );
    assert_eq!(rt; unknown_placeholder(b"%f%%x%x%y"), Some(b'x'));
    assert_eq!(rt; unknown_placeholder(b"%%%"), Some(0));
    Ok(())
}

/// A clean edge has no line, and isn't in the total.
#[test]
fn clean_edges_are_not_counted(rt: HostRuntime) -> Result<(), Fail> {
    let marks = [Mark::Ended(0, false), Mark::Failed(1, Cause::Exit(2))];
    let text = text_of(rt.alloc(), in_pipe(Style::Commands), b"app", &marks)?;
    assert_eq!(rt;
        text.as_slice(),
        b"[1/1] ld -o app a.o\nFAILED: [code=2] app app.map \nld -o app a.o\nwarning\n".as_slice()
    );
    Ok(())
}

/// A missing input is named. Nothing ran, so skipped edges aren't counted at the end.
#[test]
fn missing_input_is_named(rt: HostRuntime) -> Result<(), Fail> {
    let marks = [Mark::Failed(0, Cause::MissingInput(3)), Mark::Skipped(1, 0)];
    let text = text_of(rt.alloc(), in_pipe(Style::Labels), b"", &marks)?;
    assert_eq!(rt;
        text.as_slice(),
        b"ninja: error: 'a.c', needed by 'a.o', missing and no known rule to make it\n".as_slice()
    );
    Ok(())
}

/// With `--quiet` only failures are shown.
#[test]
fn only_failures_are_shown(rt: HostRuntime) -> Result<(), Fail> {
    let marks = [Mark::Failed(0, Cause::Signal), Mark::Stopped(1)];
    let text = text_of(rt.alloc(), in_pipe(Style::Failures), b"a.o", &marks)?;
    assert_eq!(rt;
        text.as_slice(),
        b"FAILED: [signal] a.o \ncc -c a.c\nwarning\n1 not started\n".as_slice()
    );
    let ran = [Mark::Ended(0, true)];
    let text = text_of(rt.alloc(), in_pipe(Style::Failures), b"a.o", &ran)?;
    assert_eq!(rt; text.as_slice(), b"".as_slice());
    Ok(())
}

/// On a terminal a line is written over the one before it, and an output begins on a new line.
#[test]
fn terminal_line_is_written_over(rt: HostRuntime) -> Result<(), Fail> {
    let marks = [
        Mark::Took(0),
        Mark::Ended(0, true),
        Mark::Took(1),
        Mark::Ended(1, true),
    ];
    let text = text_of(rt.alloc(), on_terminal(Style::Labels), b"a.o", &marks)?;
    assert_eq!(rt;
        text.as_slice(),
        b"\r\x1b[K\x1b[?7l[0/2] CC a.o\x1b[?7h\r\x1b[K\x1b[?7l[1/2] CC a.o\x1b[?7h\nwarning\n\
          \r\x1b[K\x1b[?7l[1/2] LINK app\x1b[?7h\r\x1b[K\x1b[?7l[2/2] LINK app\x1b[?7h\n"
            .as_slice()
    );
    Ok(())
}

/// A line that is longer than the terminal is cut in its middle.
#[test]
fn long_line_is_cut_in_its_middle(rt: HostRuntime) -> Result<(), Fail> {
    let mut display = on_terminal(Style::Labels);
    display.width = 11;
    let text = text_of(rt.alloc(), display, b"a.o", &[Mark::Took(0)])?;
    assert_eq!(rt;
        text.as_slice(),
        b"\r\x1b[K\x1b[?7l[0/2... a.o\x1b[?7h".as_slice()
    );
    Ok(())
}

/// On a terminal a failure begins on a new line.
#[test]
fn failure_on_a_terminal(rt: HostRuntime) -> Result<(), Fail> {
    let marks = [
        Mark::Took(0),
        Mark::Failed(0, Cause::Exit(1)),
        Mark::Skipped(1, 0),
    ];
    let text = text_of(rt.alloc(), on_terminal(Style::Commands), b"a.o", &marks)?;
    assert_eq!(rt;
        text.as_slice(),
        b"\r\x1b[K\x1b[?7l[0/2] cc -c a.c\x1b[?7h\r\x1b[K\x1b[?7l[1/2] cc -c a.c\x1b[?7h\n\
          \x1b[31mFAILED: \x1b[0m[code=1] a.o \ncc -c a.c\nwarning\n1 skipped\n"
            .as_slice()
    );
    let missing = [Mark::Took(1), Mark::Failed(0, Cause::MissingInput(3))];
    let text = text_of(rt.alloc(), on_terminal(Style::Labels), b"", &missing)?;
    assert_eq!(rt;
        text.as_slice(),
        b"\r\x1b[K\x1b[?7l[0/2] LINK app\x1b[?7h\n\
          ninja: error: 'a.c', needed by 'a.o', missing and no known rule to make it\n\
          \r\x1b[K\x1b[?7l[1/2] LINK app\x1b[?7h"
            .as_slice()
    );
    Ok(())
}

/// The label of a console command comes before it, and on a terminal the command's output begins on a new line.
#[test]
fn console_command_on_a_terminal(rt: HostRuntime) -> Result<(), Fail> {
    let marks = [Mark::Took(0), Mark::Ended(0, true)];
    let display = on_terminal(Style::Labels);
    let text = text_in(rt.alloc(), b"console", display, b"", &marks)?;
    assert_eq!(rt;
        text.as_slice(),
        b"\r\x1b[K\x1b[?7l[0/2] CC a.o\x1b[?7h\n".as_slice()
    );
    let text = text_in(rt.alloc(), b"console", in_pipe(Style::Labels), b"", &marks)?;
    assert_eq!(rt; text.as_slice(), b"[0/2] CC a.o\n".as_slice());
    Ok(())
}

/// On a terminal the only command that still runs is shown after the text of another one.
#[test]
fn only_command_is_shown(rt: HostRuntime) -> Result<(), Fail> {
    let marks = [
        Mark::Took(0),
        Mark::Took(1),
        Mark::Released(1),
        Mark::Ended(1, true),
    ];
    let text = text_of(rt.alloc(), on_terminal(Style::Labels), b"app", &marks)?;
    assert_eq!(rt;
        text.as_slice(),
        b"\r\x1b[K\x1b[?7l[0/2] CC a.o\x1b[?7h\r\x1b[K\x1b[?7l[0/2] LINK app\x1b[?7h\
          \r\x1b[K\x1b[?7l[1/2] LINK app\x1b[?7h\nwarning\n\r\x1b[K\x1b[?7l[1/2] CC a.o\x1b[?7h"
            .as_slice()
    );
    Ok(())
}
