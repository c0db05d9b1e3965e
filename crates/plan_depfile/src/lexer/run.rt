//! Runs of plain bytes, which the lexer takes at once.

ghost use Rattle.std.specs.Prelude.{◌≡◌, ◌<◌, ℕ, List, ◌+◌, ◌≤◌, ◌++◌, OnOk, IfOk, IfErr, length, drop};
ghost use Rattle.std.specs.List.{prefix_len};
ghost use Rattle.plan_depfile.specs.Lexer.{bytes_of, answer, stand_at};
ghost use Rattle.plan_depfile.specs.Depfile.{most};
ghost use Rattle.plan_depfile.specs.Runs.{is_plain, IsSteady, past_run};

use crate::fault::DepFault;
use crate::lexer::MOST;
use crate::state::{Held, LexState, Lexer};
use plan_text::MAX_PATH;

/// Returns whether a byte stands for itself, whatever follows it. The few such bytes below `$` are read one by
/// one.
fn is_plain(b: u8) -> bool
    ensures { result ≡ is_plain b }
{
    b > b'$' && b != b':' && b != b'\\'
}

/// Returns the number of plain bytes at the front of a text.
fn plain_len(text: &[u8]) -> usize
    ensures len { result ≡ prefix_len is_plain text.now }
    ensures within { result ≤ length text.now }
{
    text.iter().take_while(|b| is_plain(**b)).count()
}

impl Lexer {
    /// Returns the most plain bytes that can be taken at once in the present state.
    fn room(&self) -> u32
        requires within { self.now.at + length (bytes_of self.now.held) ≤ most }
        ensures held { 0 < result → self.now.held ≡ Held.Nothing }
        ensures steady { 0 < result → IsSteady (stand_at self.now.lex_state self.now.word.items) }
        ensures within { self.now.at + result ≤ most }
    {
        match self.held {
            Held::Nothing => match self.lex_state {
                LexState::Fresh | LexState::Between => 0,
                LexState::Comment | LexState::Targets(_) | LexState::Inside(_) => MOST - self.at,
            },
            _ => 0,
        }
    }

    /// Appends plain bytes to the current path, if there is one. A path that is already too long doesn't grow.
    fn append(&mut self, run: &[u8]) -> Result<(), DepFault>
        ensures lex_state { OnOk result (stand_at self.new.lex_state self.new.word.items ≡ past_run (stand_at self.old.lex_state self.old.word.items) run.now) }
        ensures same { OnOk result (self.new ≡ record self.old { word = self.new.word }) }
        ensures keys { self.new.paths ≡ self.old.paths }
        ensures memory { IfErr result (λ e. e ≡ DepFault.Memory) }
    {
        if let LexState::Inside(_) = self.lex_state {
            let room = (MAX_PATH + 1).saturating_sub(self.word.len());
            let (front, _) = run.split_at(room.min(run.len()));
            self.word.extend_from_slice(front)?;
        }
        Ok(())
    }

    /// Takes the plain bytes at the front of a text, as far as they can be taken at once. Returns how many
    /// bytes were taken.
    pub fn run(&mut self, text: &[u8]) -> Result<usize, DepFault>
        requires within { self.old.at + length (bytes_of self.old.held) ≤ most }
        ensures takes { IfOk result (λ n. (rest : List ℕ) → answer self.new (drop n text.now ++ rest) ≡ answer self.old (text.now ++ rest)) }
        ensures count { IfOk result (λ n. n ≤ length text.now) }
        ensures within { OnOk result (self.new.at + length (bytes_of self.new.held) ≤ most) }
        ensures keys { self.new.paths ≡ self.old.paths }
        ensures memory { IfErr result (λ e. e ≡ DepFault.Memory) }
    {
        let room = self.room();
        if room == 0 {
            return Ok(0);
        }
        let len = plain_len(text).min(room as usize);
        let (run, _) = text.split_at(len);
        self.append(run)?;
        self.at += len as u32;
        Ok(len)
    }
}
