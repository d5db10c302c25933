ghost use Rattle.std.specs.Prelude.{◌≡◌};
ghost use Rattle.host_protocol.specs.Gives.{IsCause};
ghost use Rattle.host_protocol_spec.specs.Commands.{json_cause};

use plain_values::Cause;
use thiserror::Error;
use value_json::{JsonFault, JsonWhy};

/// Why a line is no command.
#[derive(Debug, Drop, Error)]
pub enum LineFault {
    /// Memory ran out.
    #[error("out of memory")]
    Memory,
    /// The line is refused.
    #[error(transparent)]
    Refused(Cause),
}

impl LineFault {
    /// The fault for one of the JSON in a line.
    pub(crate) fn of_json(fault: JsonFault) -> LineFault
        ensures { IsCause fault result }
    {
        match fault {
            JsonFault::Memory => LineFault::Memory,
            JsonFault::Refused(why) => LineFault::Refused(cause_of(why)),
        }
    }
}

/// The cause of a fault of JSON.
fn cause_of(why: JsonWhy) -> Cause
    ensures { result ≡ json_cause why }
{
    match why {
        JsonWhy::NotJson => Cause::NotJson,
        JsonWhy::NotSafeInteger => Cause::NotSafeInteger,
        JsonWhy::TextTooLong => Cause::TextTooLong,
        JsonWhy::BadTag => Cause::BadTag,
        JsonWhy::DuplicateKey => Cause::DuplicateKey,
        JsonWhy::NotPatches | JsonWhy::NotPath => Cause::NotCommand,
        JsonWhy::Limit(limit) => Cause::of_limit(limit),
    }
}
