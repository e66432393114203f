// A run as a stream, for who keeps an engine in one piece: its parts are lent to `lent` from here.
ghost use Rattle.std.specs.Prelude.{length};
ghost use Rattle.protocol.specs.Run.{fed};
ghost use Rattle.frames.specs.Stream.{Answers, Feeds};

use super::lent;
use super::lent::Fed;
use model::Engine;

// A piece of input on an engine: `lent::feed` on its parts.
pub fn feed(engine: &mut Engine, input: &[u8], out: &mut [u8]) -> Fed
    ensures { Feeds input.now out.old out.new engine.new (fed (length out.old) engine.old input.now) result }
{
    let mut parts = step::parts_of!(engine);
    lent::feed(&mut parts, input, out)
}

// One frame on an engine: `lent::answer_frame` on its parts.
pub fn answer_frame(engine: &mut Engine, line: &[u8], out: &mut [u8]) -> usize
    ensures { Answers line.now engine.old engine.new out.old out.new result }
{
    let mut parts = step::parts_of!(engine);
    lent::answer_frame(&mut parts, line, out)
}
