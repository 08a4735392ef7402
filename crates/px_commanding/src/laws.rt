// How a command on its way goes on, whoever makes its steps.
ghost use Rattle.std.specs.Prelude.{ℕ, List};
ghost use Rattle.px_held.specs.HeldData.{HeldData as Data};
ghost use Rattle.px_calls.specs.Known.{Known, TimePasses};
ghost use Rattle.px_commanding.specs.declared.commit.CommitRun.{CommitRun as Commits};
ghost use Rattle.px_commanding.specs.declared.count.CountRun.{CountRun as Counts};
ghost use Rattle.px_commanding.specs.Commits as commits;
ghost use Rattle.px_commanding.specs.Counts as counts;

use px_calls::Steps;

/// Others' entries between two steps leave a command on its way as it is.
pub fn law_turns<S: Steps>()
    ensures commits { (h : Data) → (r : Commits) → (k : Known) → (k' : Known) → TimePasses k k' → commits.FitsCommit S.sound h r k → commits.FitsCommit S.sound h r k' }
    ensures counts { (n : ℕ) → (name : List ℕ) → (r : Counts) → (k : Known) → (k' : Known) → TimePasses k k' → counts.FitsCount n name r k → counts.FitsCount n name r k' }
{}
