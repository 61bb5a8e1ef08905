// A packet header into its five values.
ghost use Rattle.std.specs.Prelude.{◌≡◌};
ghost use Rattle.rules.specs.Refusal.{heard_said};
ghost use Rattle.rules.specs.Header.{header_said};

use crate::{HEADER_BYTES, Header, Refusal, value_of};

impl<'a> TryFrom<&'a [u8]> for Header {
    type Error = Refusal;

    fn try_from(header: &'a [u8]) -> Result<Header, Refusal>
        ensures { heard_said result ≡ header_said header.now }
    {
        if header.len() != HEADER_BYTES {
            return Err(Refusal::NotAHeader);
        }
        Ok(Header {
            source: value_of(header, 0),
            destination: value_of(header, 1),
            sport: value_of(header, 2) as u16,
            dport: value_of(header, 3) as u16,
            protocol: value_of(header, 4) as u8,
        })
    }
}
