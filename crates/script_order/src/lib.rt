//! Each name of a script has one number: laws alone.
#![tactic(auto)]

ghost use Rattle.std.specs.Prelude.{ℕ, List};
ghost use Rattle.script_text.specs.declared.token.Token.{Token};
ghost use Rattle.script_grammar.specs.Trees.{Program};
ghost use Rattle.script_names.specs.Scripts.{IsScript};
ghost use Rattle.script_order.specs.Order.{AllAscend, AllNumbered};

/// The names of a reducer stand in the text's order: the numbers of their tokens ascend.
pub fn law_names_ascend()
    ensures { (source : List ℕ) (tokens : List Token) (p : Program) (found : List (List (ℕ × ℕ))) → IsScript source tokens p found → AllAscend found }
{}

/// So each name of a variable finds by its token the number of the declaration that it belongs to.
pub fn law_every_name_has_its_number()
    ensures { (source : List ℕ) (tokens : List Token) (p : Program) (found : List (List (ℕ × ℕ))) → IsScript source tokens p found → AllNumbered found }
{}
