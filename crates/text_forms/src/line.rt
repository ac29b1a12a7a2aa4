// The first line of a text.
ghost use Rattle.std.specs.Prelude.{◌≡◌};
ghost use Rattle.text_forms.specs.LineLaws.{line_end};

// How many bytes stand before the first line feed, if there is one.
pub fn line_end(text: &[u8]) -> Option<usize>
    ensures { result ≡ line_end text.now }
{
    text.iter().position(|byte| *byte == b'\n')
}
