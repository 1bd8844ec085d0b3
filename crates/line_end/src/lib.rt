// A text without its line end.
#![tactic(auto)]

ghost use Rattle.std.specs.Prelude.{◌≡◌, ◌-◌, length};
ghost use Rattle.line_end.specs.LineEnd.{line_end};

// How many bytes of a text are left without its final line end.
#[tactic(auto, unfolding(crate::specs::LineEnd::line_end))]
pub fn without_line_end(text: &[u8]) -> usize
    ensures { result ≡ length text.now - line_end text.now }
{
    match text {
        [.., b'\r', b'\n'] => text.len() - 2,
        [.., b'\n'] => text.len() - 1,
        _ => text.len(),
    }
}
