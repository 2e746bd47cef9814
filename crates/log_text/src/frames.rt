//! Frames: how a record is in a log.

ghost use Rattle.std.specs.Prelude.{◌≡◌, option_map};
ghost use Rattle.log_text.specs.Frames.{first_frame, head_of};

use crate::form::LogFormat;

/// The head of the first frame of these bytes: its kind and the length of its payload, and the bytes after.
/// None if fewer bytes stand than a head has.
fn head(format: LogFormat, bytes: &[u8]) -> Option<(u8, usize, &[u8])>
    ensures { option_map (λ p. (p.0, p.1, p.2.now)) result ≡ head_of format bytes.now }
{
    match (format, bytes) {
        (LogFormat::First, [kind, high, low, rest @ ..]) => {
            Some((*kind, usize::from(*high) * 256 + usize::from(*low), rest))
        }
        (LogFormat::Second, [kind, a, b, c, d, rest @ ..]) => {
            let front = usize::from(*a) * 256 + usize::from(*b);
            let size = (front * 256 + usize::from(*c)) * 256 + usize::from(*d);
            Some((*kind, size, rest))
        }
        _ => None,
    }
}

/// The first frame of these bytes: its kind, its payload, and the bytes after it. None if fewer bytes
/// stand than its head and length say. It takes no memory.
pub fn first_frame(format: LogFormat, bytes: &[u8]) -> Option<(u8, &[u8], &[u8])>
    ensures { option_map (λ p. (p.0, p.1.now, p.2.now)) result ≡ first_frame format bytes.now }
{
    let (kind, size, rest) = head(format, bytes)?;
    if rest.len() < size {
        return None;
    }
    let (payload, behind) = rest.split_at(size);
    Some((kind, payload, behind))
}
