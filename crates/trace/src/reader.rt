// The trace reader: it carries the lent text and the position of the next unread line, and hands out each
// line as the part of that text it is. Its steps are thin: `line_from` finds the line.
ghost use Rattle.std.specs.Prelude.{◌+◌, ◌≡◌, length};
ghost use Rattle.trace.specs.Lines.{line_at};

#[derive(Clone, Copy)]
pub struct Trace<'a> {
    pub text: &'a [u8],
    pub at: usize,
}

// The line that begins at a position: with its line feed where it has one, and nothing at the text's end.
#[tactic(auto, using(crate::proofs::Finding::line_ended, crate::proofs::Finding::line_last))]
fn line_from(text: &[u8], at: usize) -> &[u8]
    ensures { result.now ≡ line_at text.now at }
{
    match pieces::find_feed(text, at) {
        Some(feed) => &text[at..feed + 1],
        None => &text[at.min(text.len())..],
    }
}

impl<'a> Trace<'a> {
    // A reader of this text, whose next unread line begins at a position.
    pub fn at(text: &'a [u8], at: usize) -> Self
        ensures { (result.text ≡ text.entry) × (result.at ≡ at) }
    {
        Trace { text, at }
    }

    // Hands out the next unread line, and has read it. At the end that is the empty part of the text.
    // Kept: no `Option`, since document 01 names this form: each line is a part of the text.
    #[tactic(auto, using(crate::proofs::Finding::line_fits))]
    pub fn next(&mut self) -> &'a [u8]
        ensures { (result.now ≡ line_at self.old.text.now self.old.at) × (self.new.text ≡ self.old.text) × (self.new.at ≡ self.old.at + length result.now) }
    {
        let line = line_from(self.text, self.at);
        self.at += line.len();
        line
    }
}
