//! Finds the name in a message about a statement, and the place of its caret. Both are found in the bytes of the
//! statement, since a fault has only the number of bytes before it.

use crate::sentences::{EXPECTED_DEPTH, UNEXPECTED_VARIABLE, sentence_of};

/// A sentence about a place in a text.
#[derive(Clone, Copy)]
pub struct Finding<'a> {
    pub sentence: &'static [u8],
    /// The name that follows the sentence in quotes. Empty if there is none.
    pub name: &'a [u8],
    /// The number of bytes before the place.
    pub at: usize,
}

/// A part of a text.
#[derive(Clone, Copy)]
struct Span {
    start: usize,
    end: usize,
}

/// Returns a text after a number of bytes. Empty if the text is shorter.
fn rest_of(text: &[u8], at: usize) -> &[u8] {
    text.get(at..).unwrap_or(&[])
}

/// Returns a part of a text. Empty if the text is shorter.
fn part_of(text: &[u8], span: Span) -> &[u8] {
    text.get(span.start..span.end).unwrap_or(&[])
}

/// Checks whether names may have a byte.
pub fn is_name_byte(byte: u8) -> bool {
    byte.is_ascii_alphanumeric() | matches!(byte, b'_' | b'.' | b'-')
}

/// Returns the length of the name at the start of a text.
fn name_length(text: &[u8]) -> usize {
    for at in 0..text.len() {
        if !is_name_byte(text[at]) {
            return at;
        }
    }
    text.len()
}

/// Returns the number of blanks at the start of a text. A dollar sign and a line feed after it are blanks too.
fn blank_length(text: &[u8]) -> usize {
    let mut escaped = false;
    for at in 0..text.len() {
        let byte = text[at];
        if escaped & (byte != b'\n') {
            return at.saturating_sub(1);
        }
        if !escaped & (byte != b' ') & (byte != b'$') {
            return at;
        }
        escaped = byte == b'$';
    }
    text.len()
}

/// Returns the first line of a text, without the line feed.
pub fn first_line(text: &[u8]) -> &[u8] {
    for at in 0..text.len() {
        if text[at] == b'\n' {
            return &text[..at];
        }
    }
    text
}

/// Returns the offset of the end of the line that has an offset.
fn line_end(text: &[u8], at: usize) -> usize {
    at.saturating_add(first_line(rest_of(text, at)).len())
}

/// Returns the part of a text that is a name, after an offset and blanks. It may be empty.
fn name_from(text: &[u8], at: usize) -> Span {
    let start = at.saturating_add(blank_length(rest_of(text, at)));
    let end = start.saturating_add(name_length(rest_of(text, start)));
    Span { start, end }
}

/// Returns the offset of the next line after a statement or a binding. A line feed after a dollar sign doesn't end it.
/// None at the end of the text.
pub fn next_line(text: &[u8], at: usize) -> Option<usize> {
    let mut escaped = false;
    for place in at..text.len() {
        let byte = text[place];
        if (byte == b'\n') & !escaped {
            return Some(place + 1);
        }
        escaped = (byte == b'$') & !escaped;
    }
    None
}

/// Returns the offset after the colon of a build line. None if it has none.
fn after_colon(text: &[u8], at: usize) -> Option<usize> {
    let mut escaped = false;
    for place in at..text.len() {
        let byte = text[place];
        if !escaped & (byte == b':') {
            return Some(place + 1);
        }
        if !escaped & (byte == b'\n') {
            return None;
        }
        escaped = (byte == b'$') & !escaped;
    }
    None
}

/// Returns the offset of the next line of a block. None if the block has no further line.
fn block_line_after(text: &[u8], at: usize) -> Option<usize> {
    match next_line(text, at) {
        Some(next) => {
            if rest_of(text, next).starts_with(b" ") {
                Some(next)
            } else {
                None
            }
        }
        None => None,
    }
}

/// Returns the offset of the last line that binds a name in the block of a statement. None if no line does.
fn line_that_binds(text: &[u8], at: usize, name: &[u8]) -> Option<usize> {
    let mut line = at;
    let mut found = None;
    for _ in 0..text.len() {
        match block_line_after(text, line) {
            Some(next) => {
                line = next;
                if part_of(text, name_from(text, next)) == name {
                    found = Some(next);
                }
            }
            None => return found,
        }
    }
    found
}

/// Returns the offset of the first line that binds another name in the block of a statement. None if no line does.
fn line_that_binds_another(text: &[u8], at: usize, name: &[u8]) -> Option<usize> {
    let mut line = at;
    for _ in 0..text.len() {
        match block_line_after(text, line) {
            Some(next) => {
                line = next;
                let bound = part_of(text, name_from(text, next));
                if !bound.is_empty() & (bound != name) {
                    return Some(next);
                }
            }
            None => return None,
        }
    }
    None
}

/// Returns the value of a binding as it is written. Empty if a variable is part of it.
fn literal_value(text: &[u8], line: usize) -> &[u8] {
    let name = name_from(text, line);
    let sign = name_from(text, name.end).start;
    let start = name_from(text, sign.saturating_add(1)).start;
    let end = line_end(text, start);
    let value = part_of(text, Span { start, end });
    if value.contains(&b'$') { &[] } else { value }
}

/// Finds the name of a declaration. The caret is after it.
fn declared(number: u8, text: &[u8], at: usize) -> Finding<'_> {
    let name = name_from(text, name_from(text, at).end);
    Finding {
        sentence: sentence_of(number),
        name: part_of(text, name),
        at: name.end,
    }
}

/// Finds the rule of a build line. The caret is at it.
fn rule_of(number: u8, text: &[u8], at: usize) -> Finding<'_> {
    let sentence = sentence_of(number);
    match after_colon(text, at) {
        Some(after) => {
            let name = name_from(text, after);
            Finding {
                sentence,
                name: part_of(text, name),
                at: name.start,
            }
        }
        None => Finding {
            sentence,
            name: &[],
            at,
        },
    }
}

/// Finds the variable of a line. The caret is at the end of the line.
fn variable_of(text: &[u8], line: usize) -> Finding<'_> {
    Finding {
        sentence: UNEXPECTED_VARIABLE,
        name: part_of(text, name_from(text, line)),
        at: line_end(text, line),
    }
}

/// Returns the offset of the line that declares a rule. None if no line does.
fn rule_line(text: &[u8], rule: &[u8]) -> Option<usize> {
    let mut line = 0usize;
    for _ in 0..text.len() {
        let keyword = name_from(text, line);
        let is_rule = (part_of(text, keyword) == b"rule".as_slice()) & (keyword.start == line);
        if is_rule & (part_of(text, name_from(text, keyword.end)) == rule) {
            return Some(line);
        }
        match next_line(text, line) {
            Some(next) => line = next,
            None => return None,
        }
    }
    None
}

/// Returns the pool that the rule of a build line names, as it is written. Empty if the rule isn't in the same file, or
/// a variable is part of the pool.
fn pool_of_rule(text: &[u8], at: usize) -> &[u8] {
    let Finding { name, .. } = rule_of(31, text, at);
    match rule_line(text, name) {
        Some(rule) => match line_that_binds(text, rule, b"pool") {
            Some(line) => literal_value(text, line),
            None => &[],
        },
        None => &[],
    }
}

/// Finds the pool of a build statement, in its own block or in its rule.
fn pool_of(number: u8, text: &[u8], at: usize) -> Finding<'_> {
    let sentence = sentence_of(number);
    match line_that_binds(text, at, b"pool") {
        Some(line) => Finding {
            sentence,
            name: literal_value(text, line),
            at: line_end(text, line),
        },
        None => Finding {
            sentence,
            name: pool_of_rule(text, at),
            at,
        },
    }
}

/// Finds the depth of a pool.
fn depth_of(number: u8, text: &[u8], at: usize) -> Finding<'_> {
    let line = line_that_binds(text, at, b"depth").unwrap_or(at);
    Finding {
        sentence: sentence_of(number),
        name: &[],
        at: line_end(text, line),
    }
}

/// Finds what is wrong with the block of a pool: a variable that isn't its depth, or else no depth.
fn pool_block(text: &[u8], at: usize) -> Finding<'_> {
    match line_that_binds_another(text, at, b"depth") {
        Some(line) => variable_of(text, line),
        None => Finding {
            sentence: EXPECTED_DEPTH,
            name: &[],
            at: line_end(text, at),
        },
    }
}

/// Returns what the message for a fault names, and where its caret is. `at` is the number of bytes before the fault.
pub fn finding_of(number: u8, text: &[u8], at: usize) -> Finding<'_> {
    match number {
        15 => variable_of(text, at),
        17 => pool_block(text, at),
        30 => declared(number, text, at),
        31 => rule_of(number, text, at),
        32 => declared(number, text, at),
        33 => pool_of(number, text, at),
        42 => depth_of(number, text, at),
        _ => Finding {
            sentence: sentence_of(number),
            name: &[],
            at,
        },
    }
}

/// Checks whether a word of a line begins at an offset: the line begins there, or a blank comes before it.
fn begins_word(text: &[u8], line: usize, at: usize) -> bool {
    if at <= line {
        return true;
    }
    matches!(text.get(at - 1), Some(b' '))
}

/// Returns the offset after a word in the statement at an offset. If the word isn't written there, returns the offset
/// itself.
pub fn after_word(text: &[u8], line: usize, word: &[u8]) -> usize {
    let end = next_line(text, line).unwrap_or(text.len());
    for at in line..end {
        if begins_word(text, line, at) && rest_of(text, at).starts_with(word) {
            return at.saturating_add(word.len());
        }
    }
    line
}

/// Returns the path that a line includes, as it is written. None if the line isn't an `include` or `subninja`.
pub fn path_included(text: &[u8], line: usize) -> Option<&[u8]> {
    let keyword = name_from(text, line);
    let word = part_of(text, keyword);
    let includes = (word == b"include".as_slice()) | (word == b"subninja".as_slice());
    if !includes | (keyword.start != line) {
        return None;
    }
    let start = name_from(text, keyword.end).start;
    let path = first_line(rest_of(text, start));
    Some(path.trim_ascii_end())
}
