//! Saved states of a lexer, which are restored if memory runs out.

ghost use Rattle.std.specs.Prelude.{◌≡◌, ◌≢◌, ℕ, List, Some, [], IfOk, length, take};
ghost use Rattle.plan_depfile.specs.Lexer.{answer};
ghost use Rattle.plan_depfile.specs.Saved.{IsSaved};

use crate::fault::DepFault;
use crate::state::{Lexer, Saved};
use std::alloc::AllocError;

impl Lexer {
    /// Saves the state of the lexer. Lists the queued paths first.
    pub fn save(&mut self) -> Result<Saved, AllocError>
        ensures saved { IfOk result (λ saved. IsSaved self.new saved) }
        ensures same { (rest : List ℕ) → answer self.new rest ≡ answer self.old rest }
        ensures place { self.new.at ≡ self.old.at }
        ensures held { self.new.held ≡ self.old.held }
        ensures fault { self.new.fault ≡ self.old.fault }
    {
        self.paths.settle()?;
        let word = Vec::from_slice(self.alloc, &self.word)?;
        Ok(Saved {
            word,
            paths: self.paths.len(),
            at: self.at,
            held: self.held,
            lex_state: self.lex_state,
            fault: self.fault,
        })
    }

    /// Restores a saved state. Since it was saved, paths have only been added.
    pub fn restore(&mut self, saved: Saved)
        requires lasting { saved.fault ≢ Some DepFault.Memory }
        ensures same { (was : Lexer) → IsSaved was saved → take (length was.paths.listed) self.old.paths.listed ≡ was.paths.listed → (rest : List ℕ) → answer self.new rest ≡ answer was rest }
        ensures place { self.new.at ≡ saved.at }
        ensures held { self.new.held ≡ saved.held }
        ensures fault { self.new.fault ≡ saved.fault }
    {
        let Saved {
            word,
            paths,
            at,
            held,
            lex_state,
            fault,
        } = saved;
        self.paths.truncate(paths);
        self.word = word;
        self.at = at;
        self.held = held;
        self.lex_state = lex_state;
        self.fault = fault;
    }
}
