//! Laws of what sessions ask.

ghost use Rattle.std.specs.Prelude.{ℕ, List};
ghost use Rattle.session_loop.specs.Asking.{AreWellFormed, asking_of, commands_of, replica_commands};

/// Whatever a script says, each command of its session that words spell is well-formed, and its contents are no longer
/// than a block may be.
pub fn sessions_ask_well_formed_commands()
    ensures { (bytes : List ℕ) → AreWellFormed (commands_of (asking_of bytes).session) }
{}

/// So is each command of its replica.
pub fn replicas_ask_well_formed_commands()
    ensures { (bytes : List ℕ) → AreWellFormed (replica_commands (asking_of bytes).replica) }
{}
