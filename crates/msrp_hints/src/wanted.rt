//! Whether hints are written: on a terminal, unless `MSRP_HINTS` decides.
ghost use Rattle.std.specs.Prelude.{◌≡◌};
ghost use Rattle.msrp_plan.specs.Common.{codes, false, true};

use msrp_faults::CliFault;
use std::env::Env;
use std::io::IsTerminal;

// The environment variable that decides: 0 or 1.
const SETTING: &str = "MSRP_HINTS";

// Whether hints are written if the variable has that value.
fn is_wanted(setting: &[u8], otherwise: bool) -> bool
    ensures never { setting.now ≡ codes "0" → result ≡ false }
    ensures always { setting.now ≡ codes "1" → result ≡ true }
    ensures other { ¬ (setting.now ≡ codes "0") → ¬ (setting.now ≡ codes "1") → result ≡ otherwise }
{
    match setting {
        b"0" => false,
        b"1" => true,
        _ => otherwise,
    }
}

/// Whether hints are written: as `MSRP_HINTS` says, 0 or 1, otherwise as the program decides.
pub fn are_wanted(rt: &HostRuntime, otherwise: bool) -> bool {
    let mut value = [0u8; 2];
    let setting = match rt.var(SETTING, &mut value) {
        Ok(len) => &value[..len],
        Err(_) => &[],
    };
    is_wanted(setting, otherwise)
}

/// Whether a terminal shows the line: standard error, and for a verdict also standard output.
pub fn is_on_terminal(rt: &HostRuntime, outcome: &Result<u8, CliFault>) -> bool {
    rt.stderr().is_terminal() && (outcome.is_err() || rt.stdout().is_terminal())
}
