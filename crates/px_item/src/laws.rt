// How an item under way goes on, whoever makes its steps.
ghost use Rattle.std.specs.Prelude.{◌≡◌, ◌≤◌, ℕ, [], List, length};
ghost use Rattle.px_lex.specs.Script.{SeenPiece, seen_piece};
ghost use Rattle.px_trail.specs.declared.entry.Act.{Act as Acts};
ghost use Rattle.px_calls.specs.Known.{Known, TimePasses};
ghost use Rattle.px_item.specs.declared.answered.Answered.{Answered as Answers};
ghost use Rattle.px_item.specs.declared.answered.Asked.{Asked as Asks};
ghost use Rattle.px_item.specs.declared.answered.Settings.{Settings as Set};
ghost use Rattle.px_item.specs.declared.item.ItemRun.{ItemRun as Runs};
ghost use Rattle.px_item.specs.declared.item.ItemState.{ItemState as States};
ghost use Rattle.px_item.specs.declared.answered.After.TheVariants.{Again};
ghost use Rattle.px_item.specs.Right.{IsAtOnce, IsRight, MadeWay, plain};
ghost use Rattle.px_item.specs.Turns.{FitsItem, IsItemBegun};

use px_calls::Steps;

/// An item that was begun is as the trail tells, and so it stays under others' entries; what is told at once is right. A piece is
/// asked once more only behind a commit that was made, and then nothing is held.
pub fn law_items<S: Steps>()
    ensures begins { (st : Set) → (p : SeenPiece) → (r : Runs) → (k : Known) → (before : ℕ) → before ≤ r.asked.first → r.asked.first ≤ length k.seen → IsItemBegun st p r → FitsItem S.sound before r.asked [] r.state k }
    ensures others { (before : ℕ) → (asked : Asks) → (own : List Acts) → (s : States) → (k : Known) → (k' : Known) → TimePasses k k' → FitsItem S.sound before asked own s k → FitsItem S.sound before asked own s k' }
    ensures at_once { (st : Set) → (p : SeenPiece) → (a : Answers) → (k : Known) → (before : ℕ) → IsAtOnce st p a → IsRight S.sound (plain k) before [] st p a }
    ensures again { (k : Known) → (before : ℕ) → (own : List Acts) → (st : Set) → (p : SeenPiece) → (a : Answers) → (st' : Set) → IsRight S.sound k before own st p a → a.after ≡ Again st' → MadeWay st st' a.reply }
{}
