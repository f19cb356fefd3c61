//! Laws of scripts and of the words of commands.

ghost use Rattle.grammar_laws.specs.CommandText.{CommandsHaveWords, LinesSpellCommands, OwnWordsSuffice};
ghost use Rattle.grammar_laws.specs.ScriptText.{PrintedScriptsReadBack, WholeScriptsArePrintable, WholeScriptsPrintAlike};

/// A script that is printed from a head and a list of things that a script may say is whole, begins with that head and
/// says these things, where it is no longer than a script and its lines may be.
pub fn printed_scripts_read_back()
    ensures { PrintedScriptsReadBack }
{}

/// A script that is whole begins with a head and says things that can be printed; and what is printed of them says the
/// same, where it is no longer than a script and its lines may be.
pub fn whole_scripts_are_printable()
    ensures printable { WholeScriptsArePrintable }
    ensures alike { WholeScriptsPrintAlike }
{}

/// Each well-formed command whose arguments are spelled by their texts has words that read to it.
pub fn commands_have_words()
    ensures { CommandsHaveWords }
{}

/// Each command that a line spells has arguments that are spelled by their texts. So a command that some line spells
/// has words of its own that read to it.
pub fn lines_spell_commands()
    ensures spelled { LinesSpellCommands }
    ensures words { OwnWordsSuffice }
{}
