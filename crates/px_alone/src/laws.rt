// What is true of a session that is alone.
ghost use Rattle.std.specs.Prelude.{List, ℕ};
ghost use Rattle.px_alone.specs.Alone.{ActsAlone, AreQuiet, IsFolded};
ghost use Rattle.px_calls.specs.Known.{Known};
ghost use Rattle.px_reply.specs.declared.transcript.Item.{Item as Items};
ghost use Rattle.px_session.specs.Replies.{AreReplied, Standing};

use px_calls::Steps;

/// Where nobody else acts, and no statement is refused for the sake of the disk or for want of memory, what a session is told is the fold over its
/// pieces, on the tables as they stood.
pub fn law_alone<S: Steps>()
    ensures folds { (k : Known) (n m : ℕ) (at to : Standing) (items : List Items) → S.sound → ActsAlone k n m → AreQuiet items → AreReplied S.sound k n at items m to → IsFolded k.base k.seen n m at items to }
{}
