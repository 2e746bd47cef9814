//! Words of a text.

ghost use Rattle.std.specs.Prelude.{◌≡◌, ◌<◌, option_map};
ghost use Rattle.spellings.specs.Words.{cut_at};

/// The parts of a text before and after the first such character: None if the text has none.
pub fn cut(text: &str, at: char) -> Option<(&str, &str)>
    requires { at < 128 }
    ensures { option_map (λ p. (p.0.now, p.1.now)) result ≡ cut_at at text.now }
{
    text.split_once(at)
}
