//! The lexer of depfiles: a state machine that takes tokens and collects paths.

pub(crate) mod run;
pub(crate) mod saved;
pub(crate) mod token;

ghost use Rattle.std.specs.Prelude.{◌≡◌, ◌≢◌, ℕ, List, ◌+◌, ◌<◌, ◌≤◌, ◌++◌, ◌∷◌, [], OnOk, OnErr, IfOk, IfErr, IfSome, IfNone, None, Ok, Err, true, false, ◌⊎◌, length, drop, take};
ghost use Rattle.plan_depfile.specs.Tokens.{Mark, token_at};
ghost use Rattle.plan_depfile.specs.Lexer.{TakesSign, TakesByte, IsAlone, bytes_of, paths_found, outcome, answer, stand_at, within_limit, unless as if_fault, found_after, found_with};
ghost use Rattle.plan_depfile.specs.Depfile.{most, canonical_word, depfile_of, with_path, with_paths};
ghost use Rattle.plan_depfile.specs.LexerRun.{grown, path_and_more, go};
ghost use Rattle.plan_depfile.specs.PathSets.{all_found};

use crate::fault::DepFault;
use crate::lexer::token::Token;
use crate::path_set::PathSet;
use crate::paths::Paths;
use crate::state::{Held, LexState, Lexer};
use plan_text::{MAX_PATH, TextFault, canonical, is_canonical};
use std::alloc::Global;

/// The most bytes of a depfile: 16 MiB.
pub const MOST: u32 = 16_777_216;

/// Returns the number of bytes that were read but not yet parsed.
fn held_len(held: Held) -> u32
    ensures len { result ≡ length (bytes_of held) }
    ensures few { result ≤ 2 }
{
    match held {
        Held::Nothing => 0,
        Held::Backslash | Held::Dollar | Held::Return => 1,
        Held::BackslashReturn => 2,
    }
}

/// Returns the canonical form of the bytes of a word.
fn canonical_bytes(alloc: Global, word: &[u8]) -> Result<Vec<u8>, DepFault>
    ensures path { IfOk result (λ path. path.items ≡ canonical_word word.now) }
    ensures memory { IfErr result (λ e. e ≡ DepFault.Memory) }
{
    match canonical(alloc, word) {
        Ok(path) => Ok(path),
        Err(TextFault::Memory) => Err(DepFault::Memory),
        Err(_) => Ok(Vec::new(alloc)),
    }
}

/// Adds the path of a word. A word that is canonical is searched and added without a copy.
fn add_word(alloc: Global, paths: &mut PathSet, word: &[u8]) -> Result<(), DepFault>
    ensures added { OnOk result (all_found paths.new ≡ with_path (all_found paths.old) (canonical_word word.now)) }
    ensures keys { take (length paths.old.listed) paths.new.listed ≡ paths.old.listed }
    ensures memory { IfErr result (λ e. e ≡ DepFault.Memory) }
{
    if is_canonical(word) {
        paths.insert(word)?;
        return Ok(());
    }
    let path = canonical_bytes(alloc, word)?;
    paths.insert(&path)?;
    Ok(())
}

/// Returns the token of a byte that is no backslash, `$` or carriage return.
fn token_alone(b: u8) -> Token
    requires { IsAlone b }
    ensures { (rest : List ℕ) → token_at b rest ≡ (result, 0) }
{
    match b {
        b':' => Token::Colon,
        b'#' => Token::Hash,
        b' ' | b'\t' => Token::Blank,
        b'\n' => Token::Newline,
        _ => Token::Byte(b),
    }
}

/// Returns the token of a backslash followed by this byte. Returns None if they don't form one token.
fn token_of_escape(b: u8) -> Option<Token>
    ensures one { IfSome result (λ token. (rest : List ℕ) → token_at 92 (b ∷ rest) ≡ (token, 1)) }
    ensures two { IfNone result (b ≢ 13 → (rest : List ℕ) → token_at 92 (b ∷ rest) ≡ (Token.Byte 92, 0)) }
{
    match b {
        b'\n' => Some(Token::Blank),
        b' ' | b'#' | b':' => Some(Token::Byte(b)),
        _ => None,
    }
}

impl Lexer {
    /// Creates a lexer at the beginning of a text.
    pub fn new(alloc: Global) -> Self
        ensures short { result.at + length (bytes_of result.held) ≤ most }
        ensures read { (rest : List ℕ) → answer result rest ≡ depfile_of rest }
    {
        Lexer {
            alloc,
            at: 0,
            held: Held::Nothing,
            lex_state: LexState::Fresh,
            word: Vec::new(alloc),
            paths: PathSet::new(alloc),
            fault: None,
        }
    }

    /// Appends a byte to the current path. A path that is already too long doesn't grow.
    fn grow(&mut self, b: u8) -> Result<(), DepFault>
        ensures word { OnOk result (self.new.word.items ≡ grown self.old.word.items b) }
        ensures same { OnOk result (self.new ≡ record self.old { word = self.new.word }) }
        ensures place { self.new.at ≡ self.old.at }
        ensures held { self.new.held ≡ self.old.held }
        ensures keys { self.new.paths ≡ self.old.paths }
        ensures memory { IfErr result (λ e. e ≡ DepFault.Memory) }
    {
        if self.word.len() <= MAX_PATH {
            self.word.push(b)?;
        }
        Ok(())
    }

    /// Begins a path with a byte.
    fn begin(&mut self, b: u8) -> Result<(), DepFault>
        ensures word { OnOk result (self.new.word.items ≡ b ∷ []) }
        ensures same { OnOk result (self.new ≡ record self.old { word = self.new.word; lex_state = LexState.Inside self.old.at }) }
        ensures place { self.new.at ≡ self.old.at }
        ensures held { self.new.held ≡ self.old.held }
        ensures keys { self.new.paths ≡ self.old.paths }
        ensures memory { IfErr result (λ e. e ≡ DepFault.Memory) }
    {
        self.word.clear();
        self.word.push(b)?;
        self.lex_state = LexState::Inside(self.at);
        Ok(())
    }

    /// Takes a token after nothing but blanks.
    fn from_fresh(&mut self, token: Token, last: u32)
        requires lex_state { self.old.lex_state ≡ LexState.Fresh }
        requires fault { self.old.fault ≡ None }
        requires within { last < most }
        ensures takes { TakesSign self.old (record { token = token; start = self.old.at; last = last }) self.new }
        ensures place { self.new.at ≡ self.old.at }
        ensures held { self.new.held ≡ self.old.held }
        ensures keys { self.new.paths ≡ self.old.paths }
    {
        match token {
            Token::Byte(_) => self.lex_state = LexState::Targets(self.at),
            Token::Blank | Token::Newline => {}
            Token::Colon => self.fault = Some(DepFault::NoTarget(self.at)),
            Token::Hash => self.lex_state = LexState::Comment,
            Token::Dollar => self.fault = Some(DepFault::LoneDollar(self.at)),
        }
    }

    /// Takes a token in a comment.
    fn from_comment(&mut self, token: Token, last: u32)
        requires lex_state { self.old.lex_state ≡ LexState.Comment }
        requires fault { self.old.fault ≡ None }
        ensures takes { TakesSign self.old (record { token = token; start = self.old.at; last = last }) self.new }
        ensures place { self.new.at ≡ self.old.at }
        ensures held { self.new.held ≡ self.old.held }
        ensures keys { self.new.paths ≡ self.old.paths }
    {
        if token == Token::Newline {
            self.lex_state = LexState::Fresh;
        }
    }

    /// Takes a token after the beginning of the first target.
    fn from_targets(&mut self, first: u32, token: Token, last: u32)
        requires lex_state { self.old.lex_state ≡ LexState.Targets first }
        requires fault { self.old.fault ≡ None }
        requires within { last < most }
        ensures takes { TakesSign self.old (record { token = token; start = self.old.at; last = last }) self.new }
        ensures place { self.new.at ≡ self.old.at }
        ensures held { self.new.held ≡ self.old.held }
        ensures keys { self.new.paths ≡ self.old.paths }
    {
        match token {
            Token::Byte(_) | Token::Blank | Token::Hash => {}
            Token::Colon => self.lex_state = LexState::Between,
            Token::Dollar => self.fault = Some(DepFault::LoneDollar(self.at)),
            Token::Newline => self.fault = Some(DepFault::NoColon(first)),
        }
    }

    /// Takes a token after the colon, outside of paths.
    fn from_between(&mut self, token: Token, last: u32) -> Result<(), DepFault>
        requires lex_state { self.old.lex_state ≡ LexState.Between }
        requires fault { self.old.fault ≡ None }
        requires within { last < most }
        ensures takes { OnOk result (TakesSign self.old (record { token = token; start = self.old.at; last = last }) self.new) }
        ensures place { self.new.at ≡ self.old.at }
        ensures held { self.new.held ≡ self.old.held }
        ensures keys { self.new.paths ≡ self.old.paths }
        ensures memory { IfErr result (λ e. e ≡ DepFault.Memory) }
    {
        match token {
            Token::Byte(b) => self.begin(b)?,
            Token::Colon => self.begin(b':')?,
            Token::Hash => self.begin(b'#')?,
            Token::Blank => {}
            Token::Dollar => self.fault = Some(DepFault::LoneDollar(self.at)),
            Token::Newline => self.lex_state = LexState::Fresh,
        }
        Ok(())
    }

    /// Ends the current path and changes the state. The path is added unless it is too long.
    fn close(&mut self, start: u32, last: u32, next: LexState) -> Result<(), DepFault>
        requires fault { self.old.fault ≡ None }
        requires within { last < most }
        requires outside { (word : List ℕ) → stand_at next word ≡ stand_at next [] }
        ensures takes { OnOk result ((stop : ℕ) (marks : List Mark) →
            outcome self.new stop marks ≡ found_after (paths_found self.old) stop (path_and_more start self.old.word.items last (go stop (stand_at next []) marks))) }
        ensures place { self.new.at ≡ self.old.at }
        ensures held { self.new.held ≡ self.old.held }
        ensures keys { take (length self.old.paths.listed) self.new.paths.listed ≡ self.old.paths.listed }
        ensures memory { IfErr result (λ e. e ≡ DepFault.Memory) }
    {
        if self.word.len() > MAX_PATH {
            self.fault = Some(DepFault::PathTooLong(start));
        } else {
            add_word(self.alloc, &mut self.paths, &self.word)?;
            self.lex_state = next;
        }
        Ok(())
    }

    /// Takes a token in a path.
    fn from_inside(&mut self, start: u32, token: Token, last: u32) -> Result<(), DepFault>
        requires lex_state { self.old.lex_state ≡ LexState.Inside start }
        requires fault { self.old.fault ≡ None }
        requires within { last < most }
        ensures takes { OnOk result (TakesSign self.old (record { token = token; start = self.old.at; last = last }) self.new) }
        ensures place { self.new.at ≡ self.old.at }
        ensures held { self.new.held ≡ self.old.held }
        ensures keys { take (length self.old.paths.listed) self.new.paths.listed ≡ self.old.paths.listed }
        ensures memory { IfErr result (λ e. e ≡ DepFault.Memory) }
    {
        match token {
            Token::Byte(b) => self.grow(b),
            Token::Colon => self.grow(b':'),
            Token::Hash => self.grow(b'#'),
            Token::Blank => self.close(start, last, LexState::Between),
            Token::Newline => self.close(start, last, LexState::Fresh),
            Token::Dollar => {
                self.fault = Some(DepFault::LoneDollar(self.at));
                Ok(())
            }
        }
    }

    /// Takes a token if there is no fault yet.
    fn from_here(&mut self, token: Token, last: u32) -> Result<(), DepFault>
        requires fault { self.old.fault ≡ None }
        requires within { last < most }
        ensures takes { OnOk result (TakesSign self.old (record { token = token; start = self.old.at; last = last }) self.new) }
        ensures place { self.new.at ≡ self.old.at }
        ensures held { self.new.held ≡ self.old.held }
        ensures keys { take (length self.old.paths.listed) self.new.paths.listed ≡ self.old.paths.listed }
        ensures memory { IfErr result (λ e. e ≡ DepFault.Memory) }
    {
        match self.lex_state {
            LexState::Fresh => {
                self.from_fresh(token, last);
                Ok(())
            }
            LexState::Comment => {
                self.from_comment(token, last);
                Ok(())
            }
            LexState::Targets(first) => {
                self.from_targets(first, token, last);
                Ok(())
            }
            LexState::Between => self.from_between(token, last),
            LexState::Inside(start) => self.from_inside(start, token, last),
        }
    }

    /// Takes a token of 1 + `more` bytes.
    fn token(&mut self, token: Token, more: u32) -> Result<(), DepFault>
        requires within { self.old.at + more < most }
        ensures takes { OnOk result (TakesSign self.old (record { token = token; start = self.old.at; last = self.old.at + more }) self.new) }
        ensures place { OnOk result (self.new.at ≡ self.old.at + (1 + more)) }
        ensures held { self.new.held ≡ self.old.held }
        ensures keys { take (length self.old.paths.listed) self.new.paths.listed ≡ self.old.paths.listed }
        ensures memory { IfErr result (λ e. e ≡ DepFault.Memory) }
    {
        if self.fault.is_none() {
            self.from_here(token, self.at + more)?;
        }
        self.at += 1 + more;
        Ok(())
    }

    /// Takes a byte when none is pending.
    fn byte_alone(&mut self, b: u8) -> Result<(), DepFault>
        requires held { self.old.held ≡ Held.Nothing }
        requires within { self.old.at < most }
        ensures takes { OnOk result (TakesByte self.old b self.new) }
        ensures place { OnOk result (self.new.at + length (bytes_of self.new.held) ≡ self.old.at + 1) }
        ensures keys { take (length self.old.paths.listed) self.new.paths.listed ≡ self.old.paths.listed }
        ensures memory { IfErr result (λ e. e ≡ DepFault.Memory) }
    {
        match b {
            b'\\' => self.held = Held::Backslash,
            b'$' => self.held = Held::Dollar,
            b'\r' => self.held = Held::Return,
            _ => self.token(token_alone(b), 0)?,
        }
        Ok(())
    }

    /// Takes a token of 1 + `more` bytes, which the pending bytes and the byte after them form.
    fn held_with(&mut self, token: Token, more: u32) -> Result<(), DepFault>
        requires within { self.old.at + more < most }
        ensures takes { OnOk result (TakesSign self.old (record { token = token; start = self.old.at; last = self.old.at + more }) self.new) }
        ensures place { OnOk result (self.new.at ≡ self.old.at + (1 + more)) }
        ensures held { OnOk result (self.new.held ≡ Held.Nothing) }
        ensures keys { take (length self.old.paths.listed) self.new.paths.listed ≡ self.old.paths.listed }
        ensures memory { IfErr result (λ e. e ≡ DepFault.Memory) }
    {
        self.token(token, more)?;
        self.held = Held::Nothing;
        Ok(())
    }

    /// Takes a byte after a backslash.
    fn behind_backslash(&mut self, b: u8) -> Result<(), DepFault>
        requires held { self.old.held ≡ Held.Backslash }
        requires within { self.old.at + 1 < most }
        ensures takes { OnOk result (TakesByte self.old b self.new) }
        ensures place { OnOk result (self.new.at + length (bytes_of self.new.held) ≡ self.old.at + 2) }
        ensures keys { take (length self.old.paths.listed) self.new.paths.listed ≡ self.old.paths.listed }
        ensures memory { IfErr result (λ e. e ≡ DepFault.Memory) }
    {
        if b == b'\r' {
            self.held = Held::BackslashReturn;
            return Ok(());
        }
        match token_of_escape(b) {
            Some(token) => {
                self.held_with(token, 1)?;
            }
            None => {
                self.held_with(Token::Byte(b'\\'), 0)?;
                self.byte_alone(b)?;
            }
        }
        Ok(())
    }

    /// Takes a byte after a carriage return.
    fn behind_return(&mut self, b: u8) -> Result<(), DepFault>
        requires held { self.old.held ≡ Held.Return }
        requires within { self.old.at + 1 < most }
        ensures takes { OnOk result (TakesByte self.old b self.new) }
        ensures place { OnOk result (self.new.at + length (bytes_of self.new.held) ≡ self.old.at + 2) }
        ensures keys { take (length self.old.paths.listed) self.new.paths.listed ≡ self.old.paths.listed }
        ensures memory { IfErr result (λ e. e ≡ DepFault.Memory) }
    {
        if b == b'\n' {
            self.held_with(Token::Newline, 1)?;
            return Ok(());
        }
        self.held_with(Token::Byte(b'\r'), 0)?;
        self.byte_alone(b)?;
        Ok(())
    }

    /// Takes a byte after a backslash and a carriage return.
    fn behind_backslash_return(&mut self, b: u8) -> Result<(), DepFault>
        requires held { self.old.held ≡ Held.BackslashReturn }
        requires within { self.old.at + 2 < most }
        ensures takes { OnOk result (TakesByte self.old b self.new) }
        ensures place { OnOk result (self.new.at + length (bytes_of self.new.held) ≡ self.old.at + 3) }
        ensures keys { take (length self.old.paths.listed) self.new.paths.listed ≡ self.old.paths.listed }
        ensures memory { IfErr result (λ e. e ≡ DepFault.Memory) }
    {
        if b == b'\n' {
            self.held_with(Token::Blank, 2)?;
            return Ok(());
        }
        self.token(Token::Byte(b'\\'), 0)?;
        self.held = Held::Return;
        self.behind_return(b)?;
        Ok(())
    }

    /// Takes a byte after a `$`.
    fn behind_dollar(&mut self, b: u8) -> Result<(), DepFault>
        requires held { self.old.held ≡ Held.Dollar }
        requires within { self.old.at + 1 < most }
        ensures takes { OnOk result (TakesByte self.old b self.new) }
        ensures place { OnOk result (self.new.at + length (bytes_of self.new.held) ≡ self.old.at + 2) }
        ensures keys { take (length self.old.paths.listed) self.new.paths.listed ≡ self.old.paths.listed }
        ensures memory { IfErr result (λ e. e ≡ DepFault.Memory) }
    {
        if b == b'$' {
            self.held_with(Token::Byte(b'$'), 1)?;
            return Ok(());
        }
        self.held_with(Token::Dollar, 0)?;
        self.byte_alone(b)?;
        Ok(())
    }

    /// Takes a byte of the text below the limit on its length.
    pub fn byte(&mut self, b: u8) -> Result<(), DepFault>
        requires within { self.old.at + length (bytes_of self.old.held) < most }
        ensures takes { OnOk result (TakesByte self.old b self.new) }
        ensures place { OnOk result (self.new.at + length (bytes_of self.new.held) ≡ self.old.at + length (bytes_of self.old.held) + 1) }
        ensures keys { take (length self.old.paths.listed) self.new.paths.listed ≡ self.old.paths.listed }
        ensures memory { IfErr result (λ e. e ≡ DepFault.Memory) }
    {
        match self.held {
            Held::Nothing => self.byte_alone(b),
            Held::Backslash => self.behind_backslash(b),
            Held::BackslashReturn => self.behind_backslash_return(b),
            Held::Dollar => self.behind_dollar(b),
            Held::Return => self.behind_return(b),
        }
    }

    /// Returns whether a `$` is pending before this byte and is refused.
    fn is_lone_before(&self, b: u8) -> bool
        ensures lone { (result ≡ true) → (self.now.held ≡ Held.Dollar) × (b ≢ 36) × (self.now.lex_state ≢ LexState.Comment) }
        ensures none { (result ≡ false) → (self.now.held ≡ Held.Dollar) → (b ≡ 36) ⊎ (self.now.lex_state ≡ LexState.Comment) }
    {
        match self.held {
            Held::Dollar => match self.lex_state {
                LexState::Comment => false,
                _ => b != b'$',
            },
            _ => false,
        }
    }

    /// Takes the first byte above the limit on the length, and sets the fault.
    fn beyond(&mut self, b: u8)
        requires fault { self.old.fault ≡ None }
        requires within { self.old.at + length (bytes_of self.old.held) ≡ most }
        ensures takes { TakesByte self.old b self.new }
        ensures place { self.new.at ≡ self.old.at }
        ensures held { self.new.held ≡ self.old.held }
        ensures keys { self.new.paths ≡ self.old.paths }
    {
        if self.is_lone_before(b) {
            self.fault = Some(DepFault::LoneDollar(self.at));
        } else {
            self.fault = Some(DepFault::TooLong(MOST));
        }
    }

    /// Takes a byte. Ignores it if there is a fault.
    fn next(&mut self, b: u8) -> Result<(), DepFault>
        requires within { self.old.at + length (bytes_of self.old.held) ≤ most }
        ensures takes { OnOk result (TakesByte self.old b self.new) }
        ensures within { OnOk result (self.new.at + length (bytes_of self.new.held) ≤ most) }
        ensures keys { take (length self.old.paths.listed) self.new.paths.listed ≡ self.old.paths.listed }
        ensures memory { IfErr result (λ e. e ≡ DepFault.Memory) }
    {
        if self.fault.is_some() {
            return Ok(());
        }
        if self.at + held_len(self.held) < MOST {
            self.byte(b)?;
        } else {
            self.beyond(b);
        }
        Ok(())
    }

    /// Takes the plain bytes at the front of a text, which isn't empty, and the byte after them. Returns how
    /// many bytes were taken.
    fn front(&mut self, text: &[u8]) -> Result<usize, DepFault>
        requires within { self.old.at + length (bytes_of self.old.held) ≤ most }
        requires filled { 0 < length text.now }
        ensures takes { IfOk result (λ n. (rest : List ℕ) → answer self.new (drop n text.now ++ rest) ≡ answer self.old (text.now ++ rest)) }
        ensures count { IfOk result (λ n. (0 < n) × (n ≤ length text.now)) }
        ensures within { OnOk result (self.new.at + length (bytes_of self.new.held) ≤ most) }
        ensures keys { take (length self.old.paths.listed) self.new.paths.listed ≡ self.old.paths.listed }
        ensures memory { IfErr result (λ e. e ≡ DepFault.Memory) }
    {
        let len = self.run(text)?;
        if len == text.len() {
            return Ok(len);
        }
        self.next(text[len])?;
        Ok(len + 1)
    }

    /// Takes a piece. If memory runs out, some bytes from its front have been taken.
    pub fn feed(&mut self, piece: &[u8]) -> Result<(), DepFault>
        requires within { self.old.at + length (bytes_of self.old.held) ≤ most }
        ensures takes { OnOk result ((rest : List ℕ) → answer self.new rest ≡ answer self.old (piece.now ++ rest)) }
        ensures within { OnOk result (self.new.at + length (bytes_of self.new.held) ≤ most) }
        ensures keys { take (length self.old.paths.listed) self.new.paths.listed ≡ self.old.paths.listed }
        ensures memory { IfErr result (λ e. e ≡ DepFault.Memory) }
    {
        let mut at = 0;
        while at < piece.len() {
            at += self.front(&piece[at..])?;
        }
        Ok(())
    }

    /// Takes the pending bytes as they are at the end of the text.
    pub fn settle(&mut self) -> Result<(), DepFault>
        requires within { self.old.at + length (bytes_of self.old.held) ≤ most }
        ensures takes { OnOk result (answer self.new [] ≡ answer self.old []) }
        ensures held { OnOk result (self.new.held ≡ Held.Nothing) }
        ensures within { OnOk result (self.new.at ≤ most) }
        ensures keys { take (length self.old.paths.listed) self.new.paths.listed ≡ self.old.paths.listed }
        ensures memory { IfErr result (λ e. e ≡ DepFault.Memory) }
    {
        match self.held {
            Held::Nothing => {}
            Held::Backslash => self.held_with(Token::Byte(b'\\'), 0)?,
            Held::BackslashReturn => {
                self.held_with(Token::Byte(b'\\'), 0)?;
                self.held_with(Token::Byte(b'\r'), 0)?;
            }
            Held::Dollar => self.held_with(Token::Dollar, 0)?,
            Held::Return => self.held_with(Token::Byte(b'\r'), 0)?,
        }
        Ok(())
    }

    /// Ends the text when no byte is pending and there is no fault.
    fn end(&mut self) -> Result<(), DepFault>
        requires fault { self.old.fault ≡ None }
        requires within { self.old.at ≤ most }
        ensures takes { OnOk result ((if_fault self.new.fault (Ok (paths_found self.new))) ≡ found_with (paths_found self.old) (stand_at self.old.lex_state self.old.word.items) (self.old.at + 0) []) }
        ensures place { self.new.at ≡ self.old.at }
        ensures held { self.new.held ≡ self.old.held }
        ensures keys { take (length self.old.paths.listed) self.new.paths.listed ≡ self.old.paths.listed }
        ensures memory { IfErr result (λ e. e ≡ DepFault.Memory) }
    {
        match self.lex_state {
            LexState::Fresh | LexState::Comment | LexState::Between => {}
            LexState::Targets(first) => self.fault = Some(DepFault::NoColon(first)),
            LexState::Inside(start) => {
                if self.word.len() > MAX_PATH {
                    self.fault = Some(DepFault::PathTooLong(start));
                } else {
                    add_word(self.alloc, &mut self.paths, &self.word)?;
                }
            }
        }
        Ok(())
    }

    /// Ends the text. Then the listed paths are the paths of the text, or an error is returned.
    pub fn finish(&mut self) -> Result<(), DepFault>
        requires within { self.old.at + length (bytes_of self.old.held) ≤ most }
        ensures paths { OnOk result (answer self.old [] ≡ Ok self.new.paths.listed) }
        ensures fault { IfErr result (λ fault. fault ≢ DepFault.Memory → answer self.old [] ≡ Err fault) }
        ensures within { OnOk result (self.new.at + length (bytes_of self.new.held) ≤ most) }
        ensures keys { take (length self.old.paths.listed) self.new.paths.listed ≡ self.old.paths.listed }
    {
        self.settle()?;
        if self.fault.is_none() {
            self.end()?;
        }
        match self.fault {
            None => {
                self.paths.settle()?;
                Ok(())
            }
            Some(fault) => Err(fault),
        }
    }

    /// Returns the listed paths.
    pub fn into_paths(self) -> Paths
        ensures { result ≡ self.paths.listed }
    {
        let Lexer { paths, .. } = self;
        Paths::of(paths.into_rows())
    }
}
