//! What is kept of a world's runs.

use crate::world::World;
use plan_journal::Keeping;
use std::marker::PhantomData;

/// Keeps the journals of runs, and the replies of each edge, if and only if the world `W` does.
#[derive(Drop)]
pub(crate) struct KeepingOf<W> {
    world: PhantomData<W>,
}

impl<W: World> Keeping for KeepingOf<W> {
    ghost keeps = { W.keeps };

    fn keeps() -> bool {
        W::keeps_journal()
    }

    ghost observes = { W.observes };

    fn observes() -> bool {
        W::observes()
    }
}
