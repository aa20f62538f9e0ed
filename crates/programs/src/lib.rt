// How a program ends.
#![tactic(auto)]

ghost use Rattle.std.specs.Prelude.{◌≡◌, OnErr, OnOk};
ghost use Rattle.std.specs.Process.{exit_status};

use std::process::ExitCode;

// The status of a program by what its work came to. Where that failed, a line on standard error says which program,
// and why.
pub fn status_of(rt: &impl Eprint, program: &str, done: anyhow::Result<()>) -> ExitCode
    ensures ok { OnOk done (exit_status result ≡ 0) }
    ensures err { OnErr done (exit_status result ≡ 1) }
{
    match done {
        Ok(()) => ExitCode::SUCCESS,
        Err(e) => {
            // Where this line can't be written either, the status still tells.
            let _ = eprintln!(rt; "{program}: {e}");
            ExitCode::FAILURE
        },
    }
}
