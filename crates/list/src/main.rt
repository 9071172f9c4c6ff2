// The list program. The run beside it is case B. Where it fails, standard error tells what failed, and why.
#![tactic(auto)]

use printing::print_listing;
use std::process::ExitCode;

fn main(rt: HostRuntime) -> ExitCode {
    match print_listing(&rt) {
        Ok(()) => ExitCode::SUCCESS,
        Err(e) => {
            let _ = eprintln!(rt; "list: {e}");
            ExitCode::FAILURE
        }
    }
}
