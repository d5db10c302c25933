//! Laws of the definitions, each the contract of a function that does nothing.
ghost use Rattle.std.specs.Prelude.{◌≡◌, ℕ, List, IsTrue, Ok};
ghost use Rattle.plain_values.specs.Names.{command_word};
ghost use Rattle.plain_values.specs.declared.command.Command.{Command};
ghost use Rattle.plain_values.specs.declared.command.Word.{Word};
ghost use Rattle.host_protocol_spec.specs.Commands.{command_of};
ghost use Rattle.host_protocol_spec.specs.PointerTexts.{is_pointer, pointer_text, steps_of};
ghost use Rattle.host_protocol_spec.specs.Readings.{IsOfWord};

/// Every line has one reading: it is of the form of at most one word, and its command, where it has one, is of that word.
#[tactic(auto, using(crate::proofs::ReadingLaws::one_word, crate::proofs::ReadingLaws::command_of_word))]
pub fn law_one_reading()
    ensures word { (line : List ℕ) (v w : Word) → IsOfWord line v → IsOfWord line w → v ≡ w }
    ensures command { (line : List ℕ) (c : Command) → command_of line ≡ Ok c → IsOfWord line (command_word c) }
{}

/// The pointer that is printed for steps is one, and has these steps.
#[tactic(auto, using(crate::proofs::PointerLaws::is_pointer_text, crate::proofs::PointerLaws::steps_read_back))]
pub fn law_pointers_read_back()
    ensures pointer { (steps : List (List ℕ)) → IsTrue (is_pointer (pointer_text steps)) }
    ensures steps { (steps : List (List ℕ)) → steps_of (pointer_text steps) ≡ steps }
{}
