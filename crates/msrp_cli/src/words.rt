//! The arguments of the command line as a list of strings.

ghost use Rattle.std.specs.IoError.{error_kind};
ghost use Rattle.msrp_plan.specs.Common.{IfErr, IfOk};
ghost use Rattle.std.specs.Prelude.{◌≡◌, ◌⊎◌, ◌↔◌, IsErrAnd};

use msrp_faults::CliFault;
use std::alloc::Global;
use std::env::Args;
use std::io;
use std::io::ErrorKind;

// The answer if the arguments can't be read: memory for lack of memory; usage if one isn't UTF-8.
fn unread_words(kind: ErrorKind) -> CliFault
    ensures memory { (result ≡ CliFault.Memory) ↔ (kind ≡ ErrorKind.OutOfMemory) }
    ensures usage { (result ≡ CliFault.Memory) ⊎ (result ≡ CliFault.Usage) }
{
    match kind {
        ErrorKind::OutOfMemory => CliFault::Memory,
        _ => CliFault::Usage,
    }
}

// Arguments in a list, pushed one by one: `collect` goes on after its first allocation has failed.
fn gathered(alloc: Global, args: Args) -> Result<Vec<String>, CliFault>
    ensures { IfErr result (λ fault. fault ≡ CliFault.Memory) }
{
    let mut words = Vec::new(alloc);
    for word in args {
        words.push(word)?;
    }
    Ok(words)
}

// The arguments that were read, or why they couldn't be.
fn words_had(alloc: Global, args: io::Result<Args>) -> Result<Vec<String>, CliFault>
    ensures had { IfOk args (λ _. IfErr result (λ fault. fault ≡ CliFault.Memory)) }
    ensures unread { IfErr args (λ error. IsErrAnd result (λ fault. (fault ≡ CliFault.Memory) ↔ (error_kind error ≡ ErrorKind.OutOfMemory))) }
    ensures usage { IfErr result (λ fault. (fault ≡ CliFault.Memory) ⊎ (fault ≡ CliFault.Usage)) }
{
    match args {
        Ok(args) => gathered(alloc, args),
        Err(error) => Err(unread_words(error.kind())),
    }
}

/// The arguments, the program's name first. One that isn't UTF-8 is a usage fault.
pub fn words_of(rt: &HostRuntime) -> Result<Vec<String>, CliFault>
    ensures { IfErr result (λ fault. (fault ≡ CliFault.Memory) ⊎ (fault ≡ CliFault.Usage)) }
{
    words_had(rt.alloc(), std::env::args(rt))
}
