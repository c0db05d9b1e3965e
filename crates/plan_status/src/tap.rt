//! Both ends of the ring: lanes fill it with marks, and one thread prints them.

ghost use Rattle.std.specs.Prelude.{◌≡◌, ◌≤◌, ◌++◌, ◌∷◌, [], ℕ, List, Option, IfOk, length, take, false, true};
ghost use Rattle.std.specs.Result.{result_err};
ghost use Rattle.rtrb.specs.Ring.{producer_capacity, received, sent};
ghost use Rattle.plan_machine.specs.declared.event.Mark.{Mark as Told};
ghost use Rattle.plan_status.specs.Formats.{HasPrinted};
ghost use Rattle.plan_status.specs.Live.{AreEnds, IsFed, IsUntapped, IsUnused, SameTap, SameFeed};

use crate::fault::PrintFault;
use crate::format::Format;
use crate::laws::join_laws;
use plan_machine::Mark;
use plan_text::{Sink, write_all};
use plan_verify::Verified;
use rtrb::{Consumer, Producer, RingBuffer};
use std::alloc::{AllocError, Global};

/// The end of a ring from which marks are printed while a run goes on, and the reason if printing stopped.
#[derive(Drop)]
pub struct Tap {
    alloc: Global,
    pub(crate) ring: Consumer<Mark>,
    /// The reason why nothing more is written.
    pub(crate) stop: Option<PrintFault>,
}

/// Returns the two ends of a ring with room for `capacity` marks. Lanes fill one end while another thread prints from
/// the other. No mark is put into a ring without room.
///
/// # Errors
/// `AllocError` if memory runs out.
pub fn live(alloc: Global, capacity: usize) -> Result<(Feed, Tap), AllocError>
    ensures ends { IfOk result (λ r. AreEnds r.0 r.1) }
    ensures begin { IfOk result (λ r. IsUnused r.0 × IsUntapped r.1) }
    ensures room { IfOk result (λ r. producer_capacity r.0.ring ≡ capacity) }
{
    let (producer, consumer) = RingBuffer::new(alloc, capacity)?;
    let feed = Feed {
        ring: producer,
        shown: 0,
    };
    let tap = Tap {
        alloc,
        ring: consumer,
        stop: None,
    };
    Ok((feed, tap))
}

/// Writes the text of one more mark, unless printing was stopped. Returns the reason if it is stopped.
fn print_mark<F: Format, W: Sink>(
    alloc: Global,
    stop: Option<PrintFault>,
    image: &Verified,
    total: u64,
    mark: Mark,
    format: &mut F,
    out: &mut W,
) -> Option<PrintFault>
    ensures printed { (start : ℕ × Option (List ℕ)) (marks : List Told)
        → HasPrinted (F.tells format.old image.now total) marks stop start (W.failures out.old, W.taken out.old)
        → HasPrinted (F.tells format.new image.now total) (marks ++ mark ∷ []) result start (W.failures out.new, W.taken out.new) }
    ensures same { F.kept format.new ≡ F.kept format.old }
{
    join_laws();
    if stop.is_some() {
        return stop;
    }
    match format.line(alloc, image, total, mark) {
        Ok(line) => match write_all(out, &line) {
            Ok(()) => None,
            Err(_) => Some(PrintFault::Write),
        },
        Err(_) => Some(PrintFault::Memory),
    }
}

/// Prints the marks from index `from` on, unless printing was stopped. Returns the reason if it is stopped.
fn print_rest<F: Format, W: Sink>(
    alloc: Global,
    stop: Option<PrintFault>,
    image: &Verified,
    total: u64,
    marks: &[Mark],
    from: usize,
    format: &mut F,
    out: &mut W,
) -> Option<PrintFault>
    requires { from ≤ length marks.now }
    ensures printed { (start : ℕ × Option (List ℕ))
        → HasPrinted (F.tells format.old image.now total) (take from marks.now) stop start (W.failures out.old, W.taken out.old)
        → HasPrinted (F.tells format.new image.now total) marks.now result start (W.failures out.new, W.taken out.new) }
    ensures same { F.kept format.new ≡ F.kept format.old }
{
    let mut stop = stop;
    for at in from..marks.len() {
        stop = print_mark(alloc, stop, image, total, marks[at], format, out);
    }
    stop
}

/// Prints the marks of a run by a format that begins with them. It holds the text of one mark at a time.
///
/// # Errors
/// `Memory` or `Write`. Then a prefix of a text of the first marks is written.
pub fn print_by<F: Format, W: Sink>(
    alloc: Global,
    image: &Verified,
    total: u64,
    marks: &[Mark],
    format: &mut F,
    out: &mut W,
) -> Result<(), PrintFault>
    ensures printed { HasPrinted (F.tells format.new image.now total) marks.now (result_err result) (W.failures out.old, W.taken out.old) (W.failures out.new, W.taken out.new) }
    ensures same { F.kept format.new ≡ F.kept format.old }
{
    format.begin();
    match print_rest(alloc, None, image, total, marks, 0, format, out) {
        Some(fault) => Err(fault),
        None => Ok(()),
    }
}

impl Tap {
    ghost use Rattle.std.specs.Prelude.{◌≡◌, ℕ, List, Option};
    ghost use Rattle.std.specs.Result.{result_err};
    ghost use Rattle.rtrb.specs.Ring.{received, sent};
    ghost use Rattle.plan_status.specs.Formats.{HasPrinted};
    ghost use Rattle.plan_status.specs.Live.{AreEnds, IsFed, SameTap};

    /// Takes the marks in the ring and prints them, until memory runs out or a write fails. After that it only takes
    /// them. It never waits for lanes.
    pub fn print<F: Format, W: Sink>(
        &mut self,
        image: &Verified,
        total: u64,
        format: &mut F,
        out: &mut W,
    )
        ensures printed { (start : ℕ × Option (List ℕ))
            → HasPrinted (F.tells format.old image.now total) (received self.old.ring) self.old.stop start (W.failures out.old, W.taken out.old)
            → HasPrinted (F.tells format.new image.now total) (received self.new.ring) self.new.stop start (W.failures out.new, W.taken out.new) }
        ensures ring { SameTap self.old self.new }
        ensures same { F.kept format.new ≡ F.kept format.old }
    {
        for _ in 0..u64::MAX {
            let Ok(mark) = self.ring.pop() else {
                return;
            };
            self.stop = print_mark(self.alloc, self.stop, image, total, mark, format, out);
        }
    }

    /// Takes all marks that the feed has put in, and prints them.
    fn drain<F: Format, W: Sink>(
        &mut self,
        feed: &mut Feed,
        image: &Verified,
        total: u64,
        format: &mut F,
        out: &mut W,
    )
        requires { AreEnds feed.old self.old }
        ensures all { received self.new.ring ≡ sent feed.old.ring }
        ensures printed { (start : ℕ × Option (List ℕ))
            → HasPrinted (F.tells format.old image.now total) (received self.old.ring) self.old.stop start (W.failures out.old, W.taken out.old)
            → HasPrinted (F.tells format.new image.now total) (received self.new.ring) self.new.stop start (W.failures out.new, W.taken out.new) }
        ensures shown { feed.new.shown ≡ feed.old.shown }
        ensures same { F.kept format.new ≡ F.kept format.old }
    {
        let count = self.ring.slots_beside(&mut feed.ring);
        for _ in 0..count {
            let mark = self.ring.pop_known();
            self.stop = print_mark(self.alloc, self.stop, image, total, mark, format, out);
        }
    }

    /// Prints the rest of a run when lanes have returned the feed: the marks that are still in the ring, and those that
    /// weren't put in. If it returns Ok, all marks are printed, each once and in their order.
    ///
    /// # Errors
    /// `Memory` or `Write`, now or in an earlier print. Then a prefix of a text of the first marks is written.
    pub fn settle<F: Format, W: Sink>(
        self,
        feed: Feed,
        image: &Verified,
        total: u64,
        marks: &[Mark],
        format: &mut F,
        out: &mut W,
    ) -> Result<(), PrintFault>
        requires ends { AreEnds feed self }
        requires fed { IsFed marks.now feed }
        ensures printed { (start : ℕ × Option (List ℕ))
            → HasPrinted (F.tells format.old image.now total) (received self.ring) self.stop start (W.failures out.old, W.taken out.old)
            → HasPrinted (F.tells format.new image.now total) marks.now (result_err result) start (W.failures out.new, W.taken out.new) }
        ensures same { F.kept format.new ≡ F.kept format.old }
    {
        let mut tap = self;
        let mut feed = feed;
        tap.drain(&mut feed, image, total, format, out);
        let shown = feed.shown;
        match print_rest(tap.alloc, tap.stop, image, total, marks, shown, format, out) {
            Some(fault) => Err(fault),
            None => Ok(()),
        }
    }
}

/// The end of a ring that lanes fill with marks while a run goes on.
#[derive(Drop)]
pub struct Feed {
    pub(crate) ring: Producer<Mark>,
    /// The number of marks that were put in, from the first on.
    pub(crate) shown: usize,
}

impl Feed {
    ghost use Rattle.std.specs.Prelude.{◌≡◌, ◌≤◌, ◌++◌, ◌∷◌, [], false, true};
    ghost use Rattle.rtrb.specs.Ring.{sent};
    ghost use Rattle.plan_status.specs.Live.{IsFed, SameFeed};

    /// Returns the number of marks that were put in.
    pub fn shown(&self) -> usize
        ensures { result ≡ self.now.shown }
    {
        self.shown
    }

    /// Puts a mark in, if there is room. Returns whether it was put in.
    fn push(&mut self, mark: Mark) -> bool
        ensures yes { result ≡ true → sent self.new.ring ≡ sent self.old.ring ++ mark ∷ [] }
        ensures no { result ≡ false → sent self.new.ring ≡ sent self.old.ring }
        ensures ring { SameFeed self.old self.new }
        ensures same { self.new.shown ≡ self.old.shown }
    {
        match self.ring.push(mark) {
            Ok(()) => true,
            Err(_full) => false,
        }
    }

    /// Puts the marks in that weren't put in yet, until the ring is full. The next call then continues there. It never
    /// waits.
    pub fn show(&mut self, marks: &[Mark])
        requires { IsFed marks.now self.old }
        ensures fed { IsFed marks.now self.new }
        ensures more { self.old.shown ≤ self.new.shown }
        ensures ring { SameFeed self.old self.new }
    {
        for at in self.shown..marks.len() {
            if !self.push(marks[at]) {
                return;
            }
            self.shown = at + 1;
        }
    }
}
