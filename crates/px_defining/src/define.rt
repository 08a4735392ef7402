// One definition as a machine: each step makes one call.
ghost use Rattle.std.specs.Prelude.{◌≡◌};
ghost use Rattle.px_calls.specs.declared.definition.Definition.{Definition as Definitions};
ghost use Rattle.px_calls.specs.Requires.{CanDefine};
ghost use Rattle.px_defining.specs.Turns.{DefinitionTurns, FitsDefinition, IsDefinitionGoing, fault_of as fault_is, state_after, turn_after};

use px_calls::{Definition, Made, StepFault, Steps, Work};
use px_values::Limit;

/// Why a definition was not made.
#[derive(Clone, Copy)]
pub enum DefineFault {
    NameExists,
    NoTable,
    NoIndex,
    /// The counted quantity would pass this number.
    Limit { which: Limit, count: u64 },
    ReadFault,
    WriteFault,
    Damaged { file: u64, place: u64 },
    Closed { call: u64 },
    Memory,
}

/// What one step of a definition came to.
#[derive(Clone, Copy)]
pub enum DefineTurn {
    Stepped,
    /// So many points and batches of the table are open.
    Waiting { count: u64 },
    Over(Result<Made, DefineFault>),
}

/// What the next step of a definition is.
#[derive(Clone, Copy)]
pub enum DefineState {
    Defining,
    /// Upkeep, since the catalogue wasn't ready.
    Settling,
    Over,
}

fn fault_of(f: StepFault) -> DefineFault
    ensures { result ≡ fault_is f }
{
    match f {
        StepFault::NameExists => DefineFault::NameExists,
        StepFault::NoTable => DefineFault::NoTable,
        StepFault::NoIndex => DefineFault::NoIndex,
        StepFault::Limit { which, count } => DefineFault::Limit { which, count },
        StepFault::ReadFault => DefineFault::ReadFault,
        StepFault::WriteFault => DefineFault::WriteFault,
        StepFault::Damaged { file, place } => DefineFault::Damaged { file, place },
        StepFault::Closed { call } => DefineFault::Closed { call },
        _ => DefineFault::Memory,
    }
}

/// What comes of a refusal: upkeep, the same step again, or the end.
fn refused(f: StepFault) -> (DefineState, DefineTurn)
    ensures { result ≡ (state_after f, turn_after f) }
{
    match f {
        StepFault::NotReady { .. } => (DefineState::Settling, DefineTurn::Stepped),
        StepFault::InUse { count } => (DefineState::Defining, DefineTurn::Waiting { count }),
        f => (DefineState::Over, DefineTurn::Over(Err(fault_of(f)))),
    }
}

/// Makes the definition.
fn define<S: Steps>(s: &mut S, definition: &Definition) -> (DefineState, DefineTurn)
    requires { CanDefine S.sound (S.known s.old) definition.now }
    ensures turns { DefinitionTurns S.sound definition.now DefineState.Defining (S.known s.old) result.0 (S.known s.new) result.1 }
    ensures one_call { S.one_call s.old s.new }
{
    match s.define(definition) {
        Ok(made) => (DefineState::Over, DefineTurn::Over(Ok(made))),
        Err(f) => refused(f),
    }
}

/// Upkeep, until there is none left. Then the definition is tried again.
fn settle<S: Steps>(s: &mut S) -> (DefineState, DefineTurn)
    ensures turns { (x : Definitions) → CanDefine S.sound (S.known s.old) x → DefinitionTurns S.sound x DefineState.Settling (S.known s.old) result.0 (S.known s.new) result.1 }
    ensures one_call { S.one_call s.old s.new }
{
    match s.upkeep() {
        Ok(Work::Did) => (DefineState::Settling, DefineTurn::Stepped),
        Ok(Work::Idle) => (DefineState::Defining, DefineTurn::Stepped),
        Err(f) => (DefineState::Over, DefineTurn::Over(Err(fault_of(f)))),
    }
}

/// A definition on its way. Other seats may act between two of its steps.
#[derive(Drop)]
pub struct DefineRun {
    definition: Definition,
    state: DefineState,
}

impl DefineRun {
    /// A run that has made no step.
    pub fn new(definition: Definition) -> DefineRun
        ensures definition { result.definition ≡ definition }
        ensures state { result.state ≡ DefineState.Defining }
    {
        DefineRun {
            definition,
            state: DefineState::Defining,
        }
    }

    /// The definition that it made, or would have made.
    pub fn finish(self) -> Definition
        ensures { result ≡ self.definition }
    {
        let DefineRun {
            definition,
            state: _state,
        } = self;
        definition
    }

    /// Makes one call.
    pub fn step<S: Steps>(&mut self, s: &mut S) -> DefineTurn
        requires fits { FitsDefinition S.sound self.old.definition self.old.state (S.known s.old) }
        requires going { IsDefinitionGoing self.old.state }
        ensures definition { self.new.definition ≡ self.old.definition }
        ensures turns { DefinitionTurns S.sound self.old.definition self.old.state (S.known s.old) self.new.state (S.known s.new) result }
        ensures one_call { S.one_call s.old s.new }
    {
        let (state, turn) = match self.state {
            DefineState::Defining => define(s, &self.definition),
            DefineState::Settling => settle(s),
            DefineState::Over => unreachable!(),
        };
        self.state = state;
        turn
    }
}
