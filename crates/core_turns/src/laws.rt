//! What holds of turns: a function that does nothing, whose contract is the law.
ghost use Rattle.core_turns.specs.Server.{ServerIsTold};

/// Who asks for the server is told of it, whatever the rows are: that breaks no rule, and nothing
/// changes.
pub fn server_is_told()
    ensures { ServerIsTold }
{}
