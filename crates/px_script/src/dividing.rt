// Dividing a script among rounds and sessions, line by line.
ghost use Rattle.std.specs.Prelude.{◌≡◌, ◌<◌, ◌++◌, ◌∷◌, [], List, length, None, Some, IfOk, OnOk};
ghost use Rattle.px_script.specs.declared.script.SessionText.{SessionText as SpecText};
ghost use Rattle.px_script.specs.Scripts as spec;
ghost use Rattle.px_script.specs.Scripts.{Lines, all_texts, lines_of};
ghost use Rattle.px_script.specs.inner.Dividing.{IsDivided, with_line};

use crate::owner::owner_of;
use crate::script::{Round, Script, SessionText};
use px_values::{Items, Text};
use std::alloc::{AllocError, Global};
use std::marker::Model;
use std::mem;

/// The number of sessions.
const SESSIONS: usize = 32;

/// The lines of a session in a round, joined by line feeds; or none yet.
#[derive(Drop)]
struct Slot {
    text: Option<String>,
}

impl Model for Slot {
    ghost use Rattle.std.specs.Prelude.{List, ℕ, Option, option_map};
    ghost use Rattle.std.specs.String.{string_bytes};

    ghost Value = { Option (List ℕ) };

    ghost view = { λ s. option_map string_bytes s.text };
}

impl Slot {
    fn new() -> Slot
        ensures { result ≡ None }
    {
        Slot { text: None }
    }

    /// Adds a line.
    fn add(&mut self, alloc: Global, line: &str) -> Result<(), AllocError>
        ensures { OnOk result (self.new ≡ Some (with_line self.old line.now)) }
    {
        match &mut self.text {
            None => self.text = Some(String::from_str(alloc, line)?),
            Some(text) => {
                text.push_str("\n")?;
                text.push_str(line)?;
            }
        }
        Ok(())
    }
}

/// A slot for each session.
fn empty_slots(alloc: Global) -> Result<Vec<Slot>, AllocError>
    ensures { IfOk result (λ slots. slots.items ≡ all_texts []) }
{
    let mut slots = Vec::with_capacity(alloc, SESSIONS)?;
    for _ in 0..SESSIONS {
        slots.push(Slot::new())?;
    }
    Ok(slots)
}

/// The texts that are there, each with its session.
fn present(alloc: Global, slots: Vec<Slot>) -> Result<Round, AllocError>
    requires { length slots.items ≡ 32 }
    ensures { IfOk result (λ round. round ≡ spec.present 1 slots.items) }
{
    let mut texts = Vec::new(alloc);
    let mut session = 0;
    for slot in slots {
        session += 1;
        if let Some(text) = slot.text {
            texts.push(SessionText {
                session,
                text: Text::of(text),
            })?;
        }
    }
    Ok(Items::of(texts))
}

/// A script that is divided up to some line.
#[derive(Drop)]
struct Division {
    /// The rounds that have ended.
    rounds: Vec<Round>,
    /// The texts of the round that goes on, by session.
    slots: Vec<Slot>,
}

impl Division {
    fn new(alloc: Global) -> Result<Division, AllocError>
        ensures { IfOk result (λ d. (d.rounds.items ≡ []) × (d.slots.items ≡ all_texts [])) }
    {
        let slots = empty_slots(alloc)?;
        Ok(Division {
            rounds: Vec::new(alloc),
            slots,
        })
    }

    /// Ends the round.
    fn end_round(&mut self, alloc: Global) -> Result<(), AllocError>
        requires { length self.old.slots.items ≡ 32 }
        ensures { OnOk result ((self.new.rounds.items ≡ self.old.rounds.items ++ spec.present 1 self.old.slots.items ∷ []) × (self.new.slots.items ≡ all_texts [])) }
    {
        let slots = mem::replace(&mut self.slots, empty_slots(alloc)?);
        self.rounds.push(present(alloc, slots)?)?;
        Ok(())
    }

    /// Gives a line to its session.
    fn add(&mut self, alloc: Global, line: &str) -> Result<(), AllocError>
        requires { length self.old.slots.items ≡ 32 }
        ensures rounds { self.new.rounds.items ≡ self.old.rounds.items }
        ensures slots { OnOk result ((begun : Lines) → self.old.slots.items ≡ all_texts begun → self.new.slots.items ≡ all_texts (begun ++ line.now ∷ [])) }
    {
        let owned = owner_of(line);
        self.slots[owned.session as usize - 1].add(alloc, owned.text)
    }

    /// Passes over a line.
    fn pass(&mut self, alloc: Global, line: &str) -> Result<(), AllocError>
        requires { length self.old.slots.items ≡ 32 }
        ensures { OnOk result ((left : Lines) (script : List (List SpecText)) → IsDivided self.old.rounds.items self.old.slots.items (line.now ∷ left) script
            → IsDivided self.new.rounds.items self.new.slots.items left script) }
    {
        if line == "---" {
            self.end_round(alloc)
        } else {
            self.add(alloc, line)
        }
    }
}

/// The first line of a text, and what follows its line feed.
fn first_line(text: &str) -> (&str, &str)
    requires { 0 < length text.now }
    ensures lines { lines_of text.now ≡ result.0.now ∷ lines_of result.1.now }
    ensures shorter { length result.1.now < length text.now }
{
    text.split_once('\n').unwrap_or((text, ""))
}

/// The rounds of a script.
pub fn divided(alloc: Global, script: &str) -> Result<Script, AllocError>
    ensures { IfOk result (λ rounds. rounds ≡ spec.script_of script.now) }
{
    let mut divided = Division::new(alloc)?;
    let mut rest = script;
    while !rest.is_empty() {
        let (line, after) = first_line(rest);
        divided.pass(alloc, line)?;
        rest = after;
    }
    divided.end_round(alloc)?;
    Ok(Items::of(divided.rounds))
}
