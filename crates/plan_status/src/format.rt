//! How the marks of a run become text, and how many of them were shown.

ghost use Rattle.std.specs.Prelude.{◌≡◌, ◌+◌, ◌++◌, ◌∷◌, [], ℕ, List, IfOk, IfSome, OnErr, if◌then◌else◌, IfErr};
ghost use Rattle.plan_image.specs.declared.image.Parts.{Parts as Image};
ghost use Rattle.plan_machine.specs.declared.event.Mark.{Mark as Told};
ghost use Rattle.plan_status.specs.Lines as defined;
ghost use Rattle.plan_status.specs.Formats.{LinesArePrinted, TellsLines};
ghost use Rattle.plan_status.specs.Live.{IsFed, IsLineProgress, IsUnused, SameFeed};

use crate::consoles::Consoles;
use crate::laws::prints_join;
use crate::lines::{line_of, tells_end};
use crate::tap::Feed;
use plan_image::Parts;
use plan_machine::Mark;
use plan_verify::Verified;
use std::alloc::{AllocError, Global};

/// Text for the marks of a run, one mark after another. A format belongs to the thread that prints, so it may hold what
/// was told so far.
pub trait Format {
    ghost use Rattle.std.specs.Prelude.{◌≡◌, ◌++◌, ◌∷◌, [], ℕ, List, IfOk, OnErr};
    ghost use Rattle.plan_image.specs.declared.image.Parts.{Parts as Image};
    ghost use Rattle.plan_machine.specs.declared.event.Mark.{Mark as Told};

    /// What stays as it is while marks come, such as a style.
    ghost Kept: { Type 0 };

    ghost kept: { Self → Kept };

    /// In this state the format has told these marks by this text. The marks are those of a run of this image, from the
    /// first on, which may come to so many command edges.
    ghost tells: { Self → Image → ℕ → List Told → List ℕ → Type 0 };

    /// Begins anew, with the first mark of a run.
    fn begin(&mut self)
        ensures begins { (p : Image) (total : ℕ) → Self.tells self.new p total [] [] }
        ensures same { Self.kept self.new ≡ Self.kept self.old };

    /// Returns the text of the next mark of a run. `total` is the number of command edges that the run may come to.
    ///
    /// # Errors
    /// `AllocError` if memory runs out. Then the mark may be told again.
    fn line(
        &mut self,
        alloc: Global,
        image: &Verified,
        total: u64,
        mark: Mark,
    ) -> Result<Vec<u8>, AllocError>
        ensures tells { IfOk result (λ line. (before : List Told) (text : List ℕ)
            → Self.tells self.old image.now total before text → Self.tells self.new image.now total (before ++ mark ∷ []) (text ++ line.items)) }
        ensures refused { OnErr result (self.new ≡ self.old) }
        ensures same { Self.kept self.new ≡ Self.kept self.old };
}

/// The status lines of a run: one line for each command edge that ran, failed, was skipped or was stopped.
#[derive(Drop)]
pub struct StatusLines {
    /// The number of marks so far that say how a command edge ended.
    ended: u64,
}

impl StatusLines {
    /// Creates the format. No mark was told.
    pub fn new() -> StatusLines {
        StatusLines { ended: 0 }
    }
}

/// Returns the number of command edges that have ended, after one more mark. None if it is too large for a `u64`.
fn counted(parts: &Parts, n: u64, mark: Mark) -> Option<u64>
    ensures { IfSome result (λ m. m ≡ (if defined.tells_end parts.now mark then 1 else 0) + n) }
{
    if tells_end(parts, mark) {
        n.checked_add(1)
    } else {
        Some(n)
    }
}

impl Format for StatusLines {
    ghost use Rattle.plan_status.specs.Formats.{TellsLines};

    ghost Kept = { Unit {0} };

    ghost kept = { λ _. tt };

    ghost tells = { λ f. TellsLines f.ended };

    fn begin(&mut self) {
        self.ended = 0;
    }

    fn line(
        &mut self,
        alloc: Global,
        image: &Verified,
        total: u64,
        mark: Mark,
    ) -> Result<Vec<u8>, AllocError> {
        let parts = image.image().parts();
        let Some(n) = counted(parts, self.ended, mark) else {
            return Err(AllocError);
        };
        let line = line_of(alloc, parts, total, n, mark)?;
        self.ended = n;
        Ok(line)
    }
}

/// States that what this format prints is the status lines of the marks, or a prefix of them.
pub fn lines_are_printed()
    ensures { LinesArePrinted }
{
    prints_join();
}

/// A feed for the marks of one run, with the console edges that hold job tokens. While a console command runs, no mark
/// is put in after the one by which its edge took its job token.
#[derive(Drop)]
pub struct LineProgress {
    pub(crate) feed: Feed,
    pub(crate) consoles: Consoles,
}

impl LineProgress {
    ghost use Rattle.std.specs.Prelude.{◌≡◌, List, IfErr, IfOk};
    ghost use Rattle.plan_machine.specs.declared.event.Mark.{Mark as Told};
    ghost use Rattle.plan_status.specs.Live.{IsFed, IsLineProgress, IsUnused, SameFeed};

    /// Creates the progress of a run of this image, none of whose marks was put into the feed.
    ///
    /// # Errors
    /// The feed, if memory runs out.
    pub fn new(alloc: Global, image: &Verified, feed: Feed) -> Result<LineProgress, Feed>
        requires { IsUnused feed }
        ensures shows { IfOk result (λ s. (marks : List Told) → IsLineProgress image.now marks s) }
        ensures same { IfOk result (λ s. s.feed ≡ feed) }
        ensures refused { IfErr result (λ f. f ≡ feed) }
    {
        match Consoles::new(alloc, image.image().parts()) {
            Ok(consoles) => Ok(LineProgress { feed, consoles }),
            Err(_) => Err(feed),
        }
    }

    /// Puts marks into the feed, as far as there is room: those that may be reported and weren't yet. It never waits.
    pub fn show(&mut self, image: &Verified, marks: &[Mark])
        requires { IsLineProgress image.now marks.now self.old }
        ensures shows { IsLineProgress image.now marks.now self.new }
        ensures same { SameFeed self.old.feed self.new.feed }
    {
        self.consoles.look(image.image().parts(), marks);
        let count = self.consoles.shown(marks);
        self.feed.show(&marks[..count]);
    }

    /// Returns the feed.
    pub fn into_feed(self) -> Feed
        ensures { result ≡ self.feed }
    {
        let LineProgress { feed, .. } = self;
        feed
    }
}
