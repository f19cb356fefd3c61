//! Laws of the words.

ghost use Rattle.std.specs.Prelude.{◌≡◌, Bool, Ok};
ghost use Rattle.depot_model.specs.declared.command.Command.{Command};
ghost use Rattle.depot_model.specs.declared.line.Line.{Line};
ghost use Rattle.command_words.specs.Reading.{command_of};
ghost use Rattle.command_words.specs.WellFormed.{IsWellFormed};

/// Each command that words spell is well-formed: types are as they are printed, paths are paths, the two sides of a
/// move or an integration answer one another, no counter that the program keeps is set, names are names, no number is
/// above 2,147,483,647, and the arguments of commands that take no revision ask for the head.
pub fn words_spell_well_formed_commands()
    ensures { (line : Line) (has_input : Bool) (command : Command) → command_of line has_input ≡ Ok command →
        IsWellFormed command }
{}
