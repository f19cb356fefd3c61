//! A law of the scripts of loads.

ghost use Rattle.load_session.specs.Loading.{LoadScriptsAreWhole};

/// The script of each seed and of each count up to a million is whole, and has two commands for each step behind the
/// one that saves its client.
pub fn load_scripts_are_whole()
    ensures { LoadScriptsAreWhole }
{}
