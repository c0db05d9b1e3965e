//! The outputs of commands that wait to be shown.

/// The outputs of commands that have ended and wait to be shown, by the first output of their edge.
pub trait Outputs {
    ghost use Rattle.std.specs.Prelude.{ℕ, List, Option, option_map};

    /// This is what was taken for an edge whose first output has this path, or nothing waited for the edge. Formats are
    /// proved for every meaning of it, so they show nothing that wasn't taken.
    ghost taken: { Self → List ℕ → Option (List ℕ) → Type 0 };

    /// Takes what the command of an edge printed. `edge` is the path of the edge's first output. Returns None if
    /// nothing waits for the edge.
    fn take(&self, edge: &[u8]) -> Option<Vec<u8>>
        ensures { Self.taken self.now edge.now (option_map (λ text. text.items) result) };

    /// Is told that `text` is printed next, and that the console command of an edge begins after it. `edge` is the path
    /// of the edge's first output.
    fn begin_console(&self, edge: &[u8], text: &[u8]);
}
