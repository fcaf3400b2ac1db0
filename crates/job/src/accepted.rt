// A job that was read and accepted: its bytes, with what reading them gave. That the bytes are a job's, and the trailer and the list theirs, is
// said here once: the functions of a call on the job need not ask it.
ghost use Rattle.std.specs.Prelude.{◌≡◌, true, IfOk, IfErr};
ghost use Rattle.rules.specs.Rules.JobFile.{rejected, parse, public_of};
ghost use Rattle.rules.specs.Rules.JobFile.{trailer as trailer_of};
ghost use Rattle.job.specs.Accepting.{is_accepted};

use location::LocationSet;
use rules::{Refusal, Trailer};

#[derive(Clone, Copy)]
pub struct AcceptedJob<'a> {
    pub bytes: &'a [u8],
    pub trailer: Trailer,
    pub public: LocationSet,
    pub ghost parsed: { is_accepted (parse bytes.now) ≡ true },
    pub ghost read: { trailer ≡ trailer_of bytes.now },
    pub ghost listed: { public ≡ public_of trailer bytes.now },
}

impl<'a> AcceptedJob<'a> {
    // The job that stands in any bytes, or the first refusal, as `read_job` tells.
    pub fn read(bytes: &'a [u8]) -> Result<Self, Refusal>
        ensures ok { IfOk result (λ j. j.bytes.now ≡ bytes.now) }
        ensures err { IfErr result (λ n. parse bytes.now ≡ rejected n) }
    {
        let read = super::read_job(bytes)?;
        Ok(AcceptedJob {
            bytes,
            trailer: read.trailer,
            public: read.public,
        })
    }
}
