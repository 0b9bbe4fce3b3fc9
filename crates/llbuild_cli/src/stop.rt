//! What stops a build before its end.
use build_report::report::End;
use file_info::memory::NoMemory;
use file_info::name::Name;
use outside::disk::DiskError;
use outside::order::Exit;
use outside::sink::SinkFault;
use outside::world::NoFault;

/// The first failing event of a build.
#[derive(Drop)]
pub enum Stop {
    CommandFailed { command: Name, exit: Exit },
    MissingInput { asker: Name, node: Name },
    DiskFault,
    SinkFault,
    NoMemory,
}

impl From<NoMemory> for Stop {
    ghost use Rattle.std.specs.Prelude.{◌≡◌};
    ghost use Rattle.llbuild_cli.specs.declared.stop.Stop.TheVariants as stops;

    ghost from_gives = { λ _ stop. stop ≡ stops.NoMemory };

    fn from(_error: NoMemory) -> Stop {
        Stop::NoMemory
    }
}

impl From<DiskError> for Stop {
    ghost use Rattle.std.specs.Prelude.{◌≡◌};
    ghost use Rattle.llbuild_cli.specs.Stop.{stop_of};

    ghost from_gives = { λ error stop. stop ≡ stop_of error };

    // The calls of a world that a build makes never answer `NotDirectory`.
    fn from(error: DiskError) -> Stop {
        match error {
            DiskError::NoMemory => Stop::NoMemory,
            DiskError::Fault | DiskError::NotDirectory => Stop::DiskFault,
        }
    }
}

impl From<SinkFault> for Stop {
    ghost use Rattle.std.specs.Prelude.{◌≡◌};
    ghost use Rattle.llbuild_cli.specs.declared.stop.Stop.TheVariants as stops;

    ghost from_gives = { λ _ stop. stop ≡ stops.SinkFault };

    fn from(_fault: SinkFault) -> Stop {
        Stop::SinkFault
    }
}

impl From<Stop> for End<NoFault> {
    ghost use Rattle.std.specs.Prelude.{◌≡◌};
    ghost use Rattle.llbuild_cli.specs.Stop.{end_of};

    ghost from_gives = { λ stop end. end ≡ end_of stop };

    fn from(stop: Stop) -> End<NoFault> {
        match stop {
            Stop::CommandFailed { command, exit } => End::CommandFailed { command, exit },
            Stop::MissingInput { asker, node } => End::MissingInput { asker, node },
            Stop::DiskFault => End::DiskFault,
            Stop::SinkFault => End::SinkFault,
            Stop::NoMemory => End::NoMemory,
        }
    }
}
