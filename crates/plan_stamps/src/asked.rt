//! Replies that a world gave in a moment.

ghost use Rattle.std.specs.Prelude.{◌≡◌, IfOk, IfSome};
ghost use Rattle.plan_machine.specs.declared.event.reply.Reply.TheVariants.{Stamp};
ghost use Rattle.plan_stamps.specs.Stamps.{AllowsOnce};
ghost use Rattle.plan_verify.specs.Turn.{Stat};

use crate::commands::Moment;
use plan_lanes::World;
use plan_machine::Reply;
use std::alloc::AllocError;
use std::marker::{Model, PhantomData};

/// Asks a world for the stamp of a path. If there is no number, the question doesn't have one yet. In this case, returns
/// `AllocError` if the path has no stamp.
pub fn stat<W: World>(world: &W, number: Option<u64>, path: &[u8]) -> Result<Reply, AllocError>
    ensures { IfOk result (λ r. AllowsOnce W.allows (Stat path.now) r) }
{
    if let Some(number) = number {
        return world.stat(number, path);
    }
    match world.stat_ahead(path) {
        Some(stamp) => Ok(Reply::Stamp(stamp)),
        None => Err(AllocError),
    }
}

/// A path, the reply of a world that was asked for its stamp, and how many commands had begun by the moment in which it
/// was asked. Only `ask_in` creates it, which takes the moment: so the moment was there before the question.
#[derive(Drop)]
pub struct AskedReply<'a, W: World> {
    path: &'a [u8],
    reply: Reply,
    begun: u64,
    world: PhantomData<W>,
}

impl<'a, W: World> Model for AskedReply<'a, W> {
    ghost use Rattle.plan_stamps.specs.Stamps.{AllowsOnce, Asked};
    ghost use Rattle.plan_verify.specs.Turn.{Stat};

    ghost Value = { Asked };

    ghost view = { λ a. record { path = a.path.now; reply = a.reply; begun = a.begun } };

    ghost invariant = { λ a. AllowsOnce W.allows (Stat a.path.now) a.reply };
}

/// Asks a world for the stamp of a path in a moment, like `stat`.
pub fn ask_in<'a, W: World>(
    world: &W,
    number: Option<u64>,
    path: &'a [u8],
    moment: &Moment,
) -> Result<AskedReply<'a, W>, AllocError>
    ensures { IfOk result (λ a. (a.path ≡ path.now) × (a.begun ≡ moment.now.begun)) }
{
    let reply = stat(world, number, path)?;
    Ok(AskedReply {
        path,
        reply,
        begun: moment.begun_count(),
        world: PhantomData,
    })
}

impl<W: World> AskedReply<'_, W> {
    /// Returns the path.
    pub fn path(&self) -> &[u8]
        ensures { result.now ≡ self.now.path }
    {
        self.path
    }

    /// Returns how many commands had begun.
    pub fn begun_count(&self) -> u64
        ensures { result ≡ self.now.begun }
    {
        self.begun
    }

    /// Returns the stamp. Returns None if the reply is another one.
    pub fn stamp(&self) -> Option<u64>
        ensures same { IfSome result (λ stamp. self.now.reply ≡ Stamp stamp) }
        ensures allowed { IfSome result (λ stamp. AllowsOnce W.allows (Stat self.now.path) (Stamp stamp)) }
    {
        match &self.reply {
            Reply::Stamp(stamp) => Some(*stamp),
            _ => None,
        }
    }

    /// Returns the reply.
    pub fn into_reply(self) -> Reply
        ensures same { result ≡ self.entry.reply }
        ensures allowed { AllowsOnce W.allows (Stat self.entry.path) result }
    {
        let AskedReply { reply, .. } = self;
        reply
    }
}
