// How a definition under way goes on, whoever makes its steps.
ghost use Rattle.px_calls.specs.declared.definition.Definition.{Definition as Definitions};
ghost use Rattle.px_calls.specs.Known.{Known, TimePasses};
ghost use Rattle.px_defining.specs.declared.define.DefineState.{DefineState as States};
ghost use Rattle.px_defining.specs.Turns.{FitsDefinition};

use px_calls::Steps;

/// Others' entries between two steps leave a definition under way as it is.
pub fn law_turns<S: Steps>()
    ensures others { (x : Definitions) → (s : States) → (k : Known) → (k' : Known) → TimePasses k k' → FitsDefinition S.sound x s k → FitsDefinition S.sound x s k' }
{}
