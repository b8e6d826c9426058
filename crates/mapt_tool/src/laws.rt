//! What holds of commands beyond one call. The law is the contract of a function that does nothing.

ghost use Rattle.std.specs.Prelude.{◌≡◌, Result};
ghost use Rattle.outside.specs.Files.{Files};
ghost use Rattle.mapt_tool.specs.declared.status.Status.{Status as Ending};
ghost use Rattle.mapt_tool.specs.Outcome.{Outcome};
ghost use Rattle.mapt_tool.specs.Planned.{Planned};
ghost use Rattle.mapt_tool.specs.Request.{Request};

/// With one worker a command has at most one outcome on given files: what it writes and says, or the status with
/// which it is refused.
pub fn commands_have_at_most_one_outcome()
    ensures { (request : Request) (files : Files) (one other : Result Planned Ending)
        → Outcome request files one → Outcome request files other → one ≡ other }
{}
