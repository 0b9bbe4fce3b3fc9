// The build system's program: reads a manifest, and starts the commands that a target needs.
#![tactic(auto)]

ghost use Rattle.std.specs.Prelude.{◌≡◌};
ghost use Rattle.std.specs.Process.{exit_status};

use build_report::report::Finish;
use llbuild_cli::run::{refuse_words, run_alone};
use memory_world::toy::ToyLaw;
use outside::world::NoFault;
use real_world::std_sink::StdSink;
use real_world::world::RealWorld;
use std::process::ExitCode;
use std::{env, io};

// The exit code of a run is its status.
fn exit_code(finish: &Finish<NoFault>) -> ExitCode
    ensures { exit_status result ≡ finish.now.status }
{
    ExitCode::from(finish.status)
}

// The words after the program's name. None where one of them is not UTF-8.
fn words_of(rt: &HostRuntime) -> io::Result<Option<Vec<String>>> {
    let mut words = Vec::new(rt.alloc());
    match env::args(rt) {
        Ok(args) => {
            for word in args.skip(1) {
                words.push(word)?;
            }
            Ok(Some(words))
        }
        Err(error) if error.kind() == io::ErrorKind::InvalidData => Ok(None),
        Err(error) => Err(error),
    }
}

fn main(rt: HostRuntime) -> io::Result<ExitCode> {
    let mut err = StdSink::new(rt.stderr());
    let Some(words) = words_of(&rt)? else {
        return Ok(exit_code(&refuse_words(rt.alloc(), &mut err)));
    };
    let mut world = RealWorld::new(rt);
    let mut out = StdSink::new(rt.stdout());
    let finish = run_alone::<ToyLaw, _, _, _>(
        rt.alloc(),
        words.as_slice(),
        &mut world,
        &mut out,
        &mut err,
    );
    Ok(exit_code(&finish))
}

#[cfg(test)]
mod orders;
#[cfg(test)]
mod tests;
