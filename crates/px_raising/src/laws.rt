// What the trail may tell.
ghost use Rattle.std.specs.Prelude.{◌<◌, ℕ, List};
ghost use Rattle.px_group.specs.Group.{IsTallied};
ghost use Rattle.px_group.specs.declared.group.Group.{Group};
ghost use Rattle.px_openbatches.specs.Pending.{HeldBatch};
ghost use Rattle.px_trail.specs.Legal.{MayRaise};
ghost use Rattle.px_trail.specs.Trail.{Base};
ghost use Rattle.px_trail.specs.declared.entry.Entry.{Entry};
ghost use Rattle.px_turns.specs.Turns.{IsAllowedHorizon};
ghost use Rattle.px_raising.specs.Turning.{turning_of_group};

/// Where the trail tells of a table what it is, it may tell that its horizon rises to any that is allowed.
pub fn law_raises()
    ensures may_raise { (b : Base) → (es : List Entry) → (g : Group) → (hs : List HeldBatch) → IsTallied b es g hs → (lookback : ℕ) → (h : ℕ) → g.horizon < h → IsAllowedHorizon (turning_of_group g) lookback h → MayRaise b es g.table.id.0 h }
{}
