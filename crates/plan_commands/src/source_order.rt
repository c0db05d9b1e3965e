//! The order in which ninja looks at the files of a manifest, by its image.

use plan_image::{CodeView, Image, Instr};
use std::alloc::{AllocError, Global};

/// A step of the walk.
#[derive(Clone, Copy)]
enum Step {
    /// The walk comes to an edge.
    Edge(u32),
    /// The walk comes to an input of an edge that may be a source file: the instruction at this place needs it.
    Input(u32, u32),
}

/// A walk over the edges that targets need: an edge's inputs come in the order of the manifest, the order-only ones
/// last, and the inputs of an edge that makes an input come before the inputs after it. Of the order-only inputs, the
/// source files come first. Each edge comes once.
#[derive(Drop)]
pub(crate) struct SourceOrder {
    /// Whether the walk has met each edge.
    met: Vec<bool>,
    /// The steps that are left, the next one last.
    ahead: Vec<Step>,
}

/// Returns the number of places in front of the named inputs of an edge: at each pair of them an order-only source
/// file is needed, and its stamp dropped.
fn order_only_end(code: &CodeView<'_>) -> u32 {
    for pair in 0..u32::MAX / 2 {
        let place = pair * 2;
        if !matches!(
            (code.instr(place), code.instr(place + 1)),
            (Some(Instr::Need(_)), Some(Instr::Drop))
        ) {
            return place;
        }
    }
    0
}

/// Returns the place after the inputs of an edge.
fn inputs_end(code: &CodeView<'_>) -> u32 {
    for place in 0..u32::MAX {
        match code.instr(place) {
            Some(Instr::Need(_) | Instr::Load(_) | Instr::Newer | Instr::Drop | Instr::Zero) => {}
            _ => return place,
        }
    }
    0
}

impl SourceOrder {
    /// Begins a walk from these targets, or from the defaults of the image if there are none.
    pub(crate) fn start(
        alloc: Global,
        image: &Image,
        targets: &[u32],
    ) -> Result<SourceOrder, AllocError> {
        let parts = image.parts();
        let mut order = SourceOrder {
            met: vec![in alloc; false; parts.edges.len()]?,
            ahead: Vec::new(alloc),
        };
        if targets.is_empty() {
            order.add_edges(parts.defaults.as_slice())?;
        } else {
            order.add_edges(targets)?;
        }
        Ok(order)
    }

    /// Adds edges, the first one as the next step.
    fn add_edges(&mut self, edges: &[u32]) -> Result<(), AllocError> {
        for edge in edges.iter().rev() {
            self.ahead.push(Step::Edge(*edge))?;
        }
        Ok(())
    }

    /// Adds the input of an edge at a place of its code, if it has one there.
    fn add_input(&mut self, image: &Image, edge: u32, place: u32) -> Result<(), AllocError> {
        let step = match image.instr(edge, place) {
            Some(Instr::Need(_)) => Step::Input(edge, place),
            Some(Instr::Load(slot)) => match image.parts().slots.as_slice().get(slot as usize) {
                Some(slot) => Step::Edge(slot.owner),
                None => return Ok(()),
            },
            _ => return Ok(()),
        };
        self.ahead.push(step)?;
        Ok(())
    }

    /// Adds the inputs of an edge between two places of its code, the first one as the next step.
    fn add_inputs(
        &mut self,
        image: &Image,
        edge: u32,
        from: u32,
        to: u32,
    ) -> Result<(), AllocError> {
        for place in (from..to).rev() {
            self.add_input(image, edge, place)?;
        }
        Ok(())
    }

    /// Marks an edge as met. Returns whether it wasn't before.
    fn meet(&mut self, edge: u32) -> bool {
        match self.met.get_mut(edge as usize) {
            Some(met) => {
                let is_new = !*met;
                *met = true;
                is_new
            }
            None => false,
        }
    }

    /// Comes to an edge: adds its inputs, unless it was met before.
    fn enter(&mut self, image: &Image, edge: u32) -> Result<(), AllocError> {
        if !self.meet(edge) {
            return Ok(());
        }
        let code = image.edge_code(edge);
        let (middle, end) = (order_only_end(&code), inputs_end(&code));
        if let Some(waits) = image.parts().edges.waits(edge as usize) {
            self.add_edges(waits)?;
        }
        self.add_inputs(image, edge, 0, middle)?;
        self.add_inputs(image, edge, middle, end)
    }

    /// Returns the next edge with a place of its code at which it may need a source file. Returns None if none is left.
    pub(crate) fn next(&mut self, image: &Image) -> Result<Option<(u32, u32)>, AllocError> {
        for _ in 0..u64::MAX {
            match self.ahead.pop() {
                Some(Step::Edge(edge)) => self.enter(image, edge)?,
                Some(Step::Input(edge, place)) => return Ok(Some((edge, place))),
                None => return Ok(None),
            }
        }
        Ok(None)
    }
}
