//! How a seat's batches and points go on from call to call.
ghost use Rattle.std.specs.Prelude.{◌≡◌, ◌<◌, ◌≤◌, ◌++◌, ◌∷◌, [], ◌⊎◌, ℕ, Bool, List, Some, length, drop, true};
ghost use Rattle.px_values.specs.declared.change.Change.{Change as RowChange};
ghost use Rattle.px_trail.specs.declared.entry.Act.{Act as Acts};
ghost use Rattle.px_trail.specs.declared.entry.Act.TheVariants.{Begun, Phase, Opened, Shut};
ghost use Rattle.px_trail.specs.Answers.{IsAmong};
ghost use Rattle.px_trail.specs.Batches.{BatchPhase, Marking, Writing, Verifying, Closing};
ghost use Rattle.px_trail.specs.declared.entry.Entry.{Entry as Entries};
ghost use Rattle.px_trail.specs.Legal.{IsLegal};
ghost use Rattle.px_trail.specs.Trail.{Base, acts_by, catalogue_of, closing_call, table_of};
ghost use Rattle.px_tables.specs.declared.table.Table.{Table as Tables};
ghost use Rattle.px_calls.specs.declared.query.BaseRow.{BaseRow as Given};
ghost use Rattle.px_calls.specs.declared.query.Point.{Point as Points};
ghost use Rattle.px_calls.specs.declared.ticket.Ticket.{Ticket as Tickets};
ghost use Rattle.px_calls.specs.Known.{Known, TimePasses, Sees, Adds, Ran, HasMade, outline};
ghost use Rattle.px_calls.specs.declared.definition.Definition.{Definition as Definitions};
ghost use Rattle.px_calls.specs.Calls.{DidBase};
ghost use Rattle.px_calls.specs.Requires.{AreFitting, CanDefine, HasOpen, IsServerShut, MayBase, TicketIn, base_owners, is_based};
ghost use Rattle.px_values.specs.declared.name.IndexId.{IndexId as IndexNumber};
ghost use Rattle.px_values.specs.declared.row.Value.{Value as ColumnValue};
ghost use Rattle.px_trail.specs.Batches.{has};

use crate::steps::Steps;

/// Calls one after another are a run: what a seat has then seen begins with what it had seen, and its own entries in the rest are
/// those of the calls, in order.
pub fn law_runs()
    ensures none { (k : Known) → Ran k k [] }
    ensures sees { (k : Known) → (k' : Known) → Sees k k' → Ran k k' [] }
    ensures adds { (k : Known) → (k' : Known) → (act : Acts) → Adds k k' act → Ran k k' (act ∷ []) }
    ensures then { (k : Known) → (a : Known) → (c : Known) → (xs : List Acts) → (ys : List Acts) → Ran k a xs → Ran a c ys → Ran k c (xs ++ ys) }
    ensures made { (k : Known) → (k' : Known) → (acts : List Acts) → (act : Acts) → Ran k k' acts → IsAmong act acts ⊎ HasMade k act → HasMade k' act }
    ensures closed { (k : Known) → (k' : Known) → (acts : List Acts) → (call : ℕ) → Ran k k' acts → closing_call k.seen ≡ Some call → closing_call k'.seen ≡ Some call }
{}

/// A batch is marked first, then written, then verified, and stays where it is under others' entries and under a call that adds no
/// entry of it.
pub fn law_tickets()
    ensures others { (k : Known) → (k' : Known) → (t : Tickets) → (p : BatchPhase) → TimePasses k k' → TicketIn k t p → TicketIn k' t p }
    ensures sees { (k : Known) → (k' : Known) → (t : Tickets) → (p : BatchPhase) → Sees k k' → TicketIn k t p → TicketIn k' t p }
    ensures begins { (k : Known) → (k' : Known) → (t : Tickets) → (cs : List RowChange) → Adds k k' (Begun t.table t.stamp cs) → TicketIn k' t Marking }
    ensures marks { (k : Known) → (k' : Known) → (t : Tickets) → Adds k k' (Phase t.table t.stamp 1) → TicketIn k t Marking → TicketIn k' t Writing }
    ensures verifies { (k : Known) → (k' : Known) → (t : Tickets) → Adds k k' (Phase t.table t.stamp 3) → TicketIn k t Verifying → TicketIn k' t Closing }
    ensures closes { (k : Known) → (k' : Known) → (call : ℕ) → Adds k k' (Shut call) → closing_call k'.seen ≡ Some call }
    ensures shut { (k : Known) → (k' : Known) → TimePasses k k' → IsServerShut k → IsServerShut k' }
{}

/// A point is open from its opening on, under others' entries and under calls that open and close nothing.
pub fn law_points()
    ensures opens { (k : Known) → (k' : Known) → (p : Points) → (scn : Bool) → Adds k k' (Opened p.table p.stamp scn) → HasOpen k' p }
    ensures others { (k : Known) → (k' : Known) → (p : Points) → TimePasses k k' → HasOpen k p → HasOpen k' p }
    ensures stays { (k : Known) → (k' : Known) → (acts : List Acts) → (p : Points) → Ran k k' acts → outline acts ≡ [] → HasOpen k p → HasOpen k' p }
{}

/// What is asked of changes, definitions and base versions stays true under others' entries, since a table whose number was drawn stays as it is
/// until it is dropped, and its indexes aren't rebuilt nor disabled while a point is open; rows that were given their base versions are told so; and
/// an own act is one since any place before it.
pub fn law_asked<S: Steps>()
    ensures tables { (b : Base) → (t : ℕ) → (es : List Entries) → (more : List Entries) → (x : Tables) → IsLegal b (es ++ more) → t < (catalogue_of b es).next → table_of b (es ++ more) t ≡ Some x → table_of b es t ≡ Some x }
    ensures fits { (k : Known) → (k' : Known) → (t : ℕ) → (cs : List RowChange) → TimePasses k k' → AreFitting k t cs → AreFitting k' t cs }
    ensures defines { (k : Known) → (k' : Known) → (x : Definitions) → TimePasses k k' → CanDefine S.sound k x → CanDefine S.sound k' x }
    ensures bases { (k : Known) → (k' : Known) → (p : Points) → (i : ℕ) → (xs : List Given) → TimePasses k k' → HasOpen k p → MayBase S.sound k p i xs → MayBase S.sound k' p i xs }
    ensures based { (k : Known) → (k' : Known) → (p : Points) → (i : IndexNumber) → (xs : List Given) → (at : ℕ) → (d : DidBase k k' p i xs at) → (r : List ColumnValue) → has (base_owners d.table xs) r ≡ true → is_based k'.seen i.0 r ≡ true }
    ensures since { (k : Known) → (k' : Known) → (acts : List Acts) → (act : Acts) → (n : ℕ) → n ≤ length k.seen → Ran k k' acts → IsAmong act acts → IsAmong act (acts_by k'.seat (drop n k'.seen)) }
{}
