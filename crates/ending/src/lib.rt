// How a program ends.
#![tactic(auto)]

ghost use Rattle.std.specs.Prelude.{◌≡◌, cond, is_ok};
ghost use Rattle.std.specs.Process.{exit_status};

use std::process::ExitCode;

// The status of a program that came to this. What went wrong is one line on standard error, if that takes it.
pub fn ended(rt: &impl Eprint, outcome: anyhow::Result<()>) -> ExitCode
    ensures { exit_status result ≡ cond (is_ok outcome) 0 1 }
{
    match outcome {
        Ok(()) => ExitCode::SUCCESS,
        Err(e) => {
            let _ = rt.eprintln(e);
            ExitCode::FAILURE
        }
    }
}
