//! Which words are which command.
ghost use Rattle.std.specs.Prelude.{◌≡◌, ◌↔◌, ℕ, List, Some};
ghost use Rattle.px_arguments.specs.Arguments.{SeenCommand, command_in};
ghost use Rattle.px_arguments.specs.Spelled.{IsSpelled};

/// Words are read as a command exactly where they spell it, and no words spell two.
pub fn law_spelled()
    ensures read { (words : List (List ℕ)) → (c : SeenCommand) → (command_in words ≡ Some c) ↔ IsSpelled words c }
    ensures one { (words : List (List ℕ)) → (a : SeenCommand) → (b : SeenCommand) → IsSpelled words a → IsSpelled words b → a ≡ b }
{}
