//! Reads entries from the front of some bytes, without a copy.

ghost use Rattle.std.specs.Prelude.{◌≡◌, option_map, is_some};
ghost use Rattle.std.specs.Int.{w16, w32, w64};
ghost use Rattle.plan_record.specs.Heads.{head_data};
ghost use Rattle.plan_record.specs.Reading.{number_at, bytes_at, path_at, command_at, some_paths_at, body_at, entry_of, entry_at, head_at, entry_head_at};

/// The head of an entry: the fields before its paths.
#[derive(Clone, Copy)]
pub(crate) struct Head<'a> {
    pub output: &'a [u8],
    pub command: &'a [u8],
    pub basis: u64,
    /// The number of paths.
    pub count: u32,
}

/// The most bytes of a path.
pub(crate) const MAX_PATH: u16 = 4096;

/// The most bytes of a command.
pub(crate) const MAX_COMMAND: u32 = 1_048_576;

#[tactic(auto, unfolding(crate::specs::Reading::number_at))]
fn read_u16(bytes: &[u8]) -> Option<(u16, &[u8])>
    ensures { option_map (λ x. (x.0, x.1.now)) result ≡ number_at w16 bytes.now }
{
    if bytes.len() < 2 {
        return None;
    }
    let (front, rest) = bytes.split_at(2);
    Some((u16::from_be_bytes([front[0], front[1]]), rest))
}

#[tactic(auto, unfolding(crate::specs::Reading::number_at))]
fn read_u32(bytes: &[u8]) -> Option<(u32, &[u8])>
    ensures { option_map (λ x. (x.0, x.1.now)) result ≡ number_at w32 bytes.now }
{
    if bytes.len() < 4 {
        return None;
    }
    let (front, rest) = bytes.split_at(4);
    let number = u32::from_be_bytes([front[0], front[1], front[2], front[3]]);
    Some((number, rest))
}

#[tactic(auto, unfolding(crate::specs::Reading::number_at))]
fn read_u64(bytes: &[u8]) -> Option<(u64, &[u8])>
    ensures { option_map (λ x. (x.0, x.1.now)) result ≡ number_at w64 bytes.now }
{
    if bytes.len() < 8 {
        return None;
    }
    let (front, rest) = bytes.split_at(8);
    let number = u64::from_be_bytes([
        front[0], front[1], front[2], front[3], front[4], front[5], front[6], front[7],
    ]);
    Some((number, rest))
}

#[tactic(auto, unfolding(crate::specs::Reading::bytes_at))]
fn read_bytes(len: usize, bytes: &[u8]) -> Option<(&[u8], &[u8])>
    ensures { option_map (λ x. (x.0.now, x.1.now)) result ≡ bytes_at len bytes.now }
{
    if bytes.len() < len {
        return None;
    }
    Some(bytes.split_at(len))
}

#[tactic(auto, unfolding(crate::specs::Reading::path_at))]
pub(crate) fn read_path(bytes: &[u8]) -> Option<(&[u8], &[u8])>
    ensures { option_map (λ x. (x.0.now, x.1.now)) result ≡ path_at bytes.now }
{
    let (len, rest) = read_u16(bytes)?;
    if len == 0 || MAX_PATH < len {
        return None;
    }
    read_bytes(usize::from(len), rest)
}

#[tactic(auto, unfolding(crate::specs::Reading::command_at))]
fn read_command(bytes: &[u8]) -> Option<(&[u8], &[u8])>
    ensures { option_map (λ x. (x.0.now, x.1.now)) result ≡ command_at bytes.now }
{
    let (len, rest) = read_u32(bytes)?;
    if MAX_COMMAND < len {
        return None;
    }
    read_bytes(len as usize, rest)
}

/// Reads the head of a body, and returns it with the rest of the body.
#[tactic(auto, unfolding(crate::specs::Reading::head_at))]
fn read_head(body: &[u8]) -> Option<(Head<'_>, &[u8])>
    ensures { option_map (λ x. (head_data x.0, x.1.now)) result ≡ head_at body.now }
{
    let (output, rest) = read_path(body)?;
    let (command, rest) = read_command(rest)?;
    let (basis, rest) = read_u64(rest)?;
    let (count, rest) = read_u32(rest)?;
    let head = Head {
        output,
        command,
        basis,
        count,
    };
    Some((head, rest))
}

/// Returns the bytes after `count` paths. Returns None if there are fewer paths.
pub(crate) fn skip_paths(count: u32, bytes: &[u8]) -> Option<&[u8]>
    ensures { option_map (λ rest. rest.now) result ≡ option_map (λ x. x.1) (some_paths_at count bytes.now) }
{
    let mut rest = bytes;
    for _ in 0..count {
        let (_, after) = read_path(rest)?;
        rest = after;
    }
    Some(rest)
}

/// Returns whether these bytes are the body of an entry.
#[tactic(auto, unfolding(crate::specs::Reading::entry_of, crate::specs::Reading::body_at))]
fn is_body(body: &[u8]) -> bool
    ensures { result ≡ is_some (entry_of body.now) }
{
    match read_head(body) {
        Some((head, rest)) => match skip_paths(head.count, rest) {
            Some(rest) => rest.is_empty(),
            None => false,
        },
        None => false,
    }
}

/// Reads the head of the entry at the front, and returns it with the rest of its body, which is not read.
#[tactic(auto, unfolding(crate::specs::Reading::entry_head_at))]
pub(crate) fn entry_head(bytes: &[u8]) -> Option<(Head<'_>, &[u8])>
    ensures { option_map (λ x. (head_data x.0, x.1.now)) result ≡ entry_head_at bytes.now }
{
    let (len, rest) = read_u32(bytes)?;
    let (body, _) = read_bytes(len as usize, rest)?;
    read_head(body)
}

/// Returns the bytes after the entry at the front. Returns None if there is no entry.
#[tactic(auto, unfolding(crate::specs::Reading::entry_at))]
pub(crate) fn skip_entry(bytes: &[u8]) -> Option<&[u8]>
    ensures { option_map (λ rest. rest.now) result ≡ option_map (λ x. x.1) (entry_at bytes.now) }
{
    let (len, rest) = read_u32(bytes)?;
    let (body, rest) = read_bytes(len as usize, rest)?;
    if is_body(body) { Some(rest) } else { None }
}
