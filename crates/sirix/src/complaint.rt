use std::fmt;
use sx_shell::Status;

/// What the program writes on the standard error of a run that did not end well.
#[derive(Clone, Copy, Debug, PartialEq, Eq)]
pub struct Complaint {
    /// How the run ended. It is not `Done`.
    pub status: Status,
}

const USAGE: &str =
    "usage: sirix live FILE, create FILE [WINDOW [FROM [TO]]], show FILE REVISION, check FILE";

impl fmt::Display for Complaint {
    fn fmt<W: fmt::Write>(&self, f: &mut fmt::Formatter<W>) -> fmt::Result {
        match self.status {
            Status::Done => Ok(()),
            Status::Usage => f.write_str(USAGE),
            Status::ReadFault => f.write_str("sirix: reading failed"),
            Status::WriteFault => f.write_str("sirix: writing failed"),
            Status::VolumeFault => f.write_str("sirix: the volume failed"),
            Status::Damaged(damage) => write!(
                f,
                "sirix: damaged at {}, rule {}",
                damage.place, damage.rule
            ),
            Status::NotOurs { first } => {
                write!(f, "sirix: not a volume of this program, first byte {first}")
            }
            Status::Unborn => f.write_str("sirix: the volume is not born"),
            Status::Born => f.write_str("sirix: the volume is born already"),
            Status::Missing { asked, seen } => {
                write!(f, "sirix: no revision {asked}, there are {seen}")
            }
            Status::OutOfMemory => f.write_str("sirix: out of memory"),
        }
    }
}

#[cfg(test)]
mod tests {
    use super::*;
    use std::test::Fail;
    use sx_bytes::Damage;

    #[test]
    fn each_status_has_its_line(rt: HostRuntime) -> Result<(), Fail> {
        let damage = Damage {
            place: 1,
            rule: 6,
            kept: [0; 32],
            found: [0; 32],
        };
        let lines = [
            (
                Status::Usage,
                "usage: sirix live FILE, create FILE [WINDOW [FROM [TO]]], show FILE REVISION, check FILE",
            ),
            (Status::ReadFault, "sirix: reading failed"),
            (Status::WriteFault, "sirix: writing failed"),
            (Status::VolumeFault, "sirix: the volume failed"),
            (Status::Damaged(damage), "sirix: damaged at 1, rule 6"),
            (
                Status::NotOurs { first: 7 },
                "sirix: not a volume of this program, first byte 7",
            ),
            (Status::Unborn, "sirix: the volume is not born"),
            (Status::Born, "sirix: the volume is born already"),
            (
                Status::Missing { asked: 3, seen: 2 },
                "sirix: no revision 3, there are 2",
            ),
            (Status::OutOfMemory, "sirix: out of memory"),
        ];
        for (status, line) in lines {
            let text = format!(in rt.alloc(); "{}", Complaint { status })?;
            assert_eq!(rt; text.as_str(), line);
        }
        Ok(())
    }
}
