//! Laws of words. Those after a command count from 0. Nothing is done: each function's contract is the
//! law.

ghost use Rattle.std.specs.Prelude.{◌≡◌, ◌+◌, ◌++◌, ◌∷◌, [], true, ℕ, List, Some, None, Ok, Err, length, map, take};
ghost use Rattle.command_line.specs.CommandLine.{command_line, command_with};
ghost use Rattle.command_line.specs.Judging.{refusal_after, first_refused};
ghost use Rattle.command_words.specs.Limits.{Fits};
ghost use Rattle.command_words.specs.OptionTable.{takes_value};
ghost use Rattle.command_words.specs.Roles.{role_of, roles_of};
ghost use Rattle.command_words.specs.declared.command.Command.{Command};
ghost use Rattle.command_words.specs.declared.option_table.CommandKind.{CommandKind};
ghost use Rattle.command_words.specs.declared.option_table.OptionKind.{OptionKind};
ghost use Rattle.command_words.specs.declared.usage.UsageWhy.{UsageWhy};

use crate::judge::Refusal;
use command_words::roles::Role;
use command_words::usage::WordsFault;

/// Words are read from left to right: what follows changes no word's role, and no fault.
pub fn left_to_right()
    ensures value { (k : CommandKind) (words more : List (List ℕ)) →
        take (length words) (roles_of k (words ++ more)) ≡ roles_of k words }
    ensures first { (k : CommandKind) (words more : List (List ℕ)) (i : ℕ) → first_refused k words ≡ Some i →
        command_with k (words ++ more) ≡ command_with k words }
{}

/// The first word that is refused decides, at its place, whatever follows.
pub fn first_refusal_decides()
    ensures first { (k : CommandKind) (before after : List (List ℕ)) (w : List ℕ) (why : UsageWhy) →
        first_refused k before ≡ None → refusal_after k before w ≡ Some (Refusal.Why why) →
        command_with k (before ++ w ∷ after) ≡ Err (WordsFault.Usage (length before + 1) why) }
{}

/// The word after an option with a value is its value, whatever the word is.
pub fn value_follows()
    ensures value { (k : CommandKind) (before : List (List ℕ)) (w v : List ℕ) (o : OptionKind) →
        role_of k (roles_of k before) w ≡ Role.Given o → takes_value o ≡ true →
        roles_of k (before ++ w ∷ v ∷ []) ≡ roles_of k before ++ Role.Given o ∷ Role.Value o ∷ [] }
{}

/// After `--` every word is an operand, whatever it is.
pub fn operands_follow()
    ensures value { (k : CommandKind) (before after : List (List ℕ)) (w : List ℕ) →
        role_of k (roles_of k before) w ≡ Role.Dashes →
        roles_of k (before ++ w ∷ after) ≡ roles_of k before ++ Role.Dashes ∷ map (λ v. Role.Operand) after }
{}

/// Each command that words are keeps the limits of the tables.
pub fn commands_fit()
    ensures fits { (words : List (List ℕ)) (c : Command) → command_line words ≡ Ok c → Fits c }
{}
