//! What the definitions of this crate come to.
ghost use Rattle.std.specs.Prelude.{◌≡◌, ℕ, List};
ghost use Rattle.rma_command.specs.Words.{Command, AskFor};

/// The words ask for one thing at most.
pub fn words_ask_for_one_command()
    ensures { (words : List (List ℕ)) (command other : Command) → AskFor words command → AskFor words other → command ≡ other }
{}
