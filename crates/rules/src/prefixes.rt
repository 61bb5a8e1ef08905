// The five prefixes of a record, once it is known that none is longer than its field.
ghost use Rattle.std.specs.Prelude.{◌≡◌, ◌↔◌, false, true, ◌<◌, IsNone, IfSome};
ghost use Rattle.rules.specs.Field.{field_at, value_in, length_in};
ghost use Rattle.rules.specs.Rule.{rule_of};
ghost use Rattle.rules.specs.Ports.{asks_port, has_ports};
ghost use Rattle.rules.specs.Table.{long_prefix, stray_bit, stray_port};

use crate::fields::{length_of, value_of, width_of};
use crate::{FIELDS, RecordBytes};
use bits::Prefix;

// The two ports and the protocol, by their number among the fields.
const SOURCE_PORT: usize = 2;

const DESTINATION_PORT: usize = 3;

const PROTOCOL: usize = 4;

#[derive(Clone, Copy)]
pub struct Prefixes<'a> {
    pub bytes: &'a RecordBytes,
    ghost fitting: { long_prefix bytes.now ≡ false },
}

// 3: some prefix is longer than its field.
fn has_long_prefix(bytes: &RecordBytes) -> bool
    ensures { result ≡ long_prefix bytes.now }
{
    (0..FIELDS).any(|f| width_of(f) < length_of(bytes, f))
}

impl<'a> Prefixes<'a> {
    // None where 3 is refused.
    pub fn of(bytes: &'a RecordBytes) -> Option<Prefixes<'a>>
        ensures none { IsNone result ↔ (long_prefix bytes.now ≡ true) }
        ensures some { IfSome result (λ prefixes. prefixes.bytes.now ≡ bytes.now) }
    {
        if has_long_prefix(bytes) {
            return None;
        }
        Some(Prefixes { bytes })
    }

    // That of field f.
    pub fn get(self, f: usize) -> Prefix
        requires { f < 5 }
        ensures value { result.value ≡ value_in self.entry.bytes.now (field_at f) }
        ensures len { result.len ≡ length_in self.entry.bytes.now (field_at f) }
        ensures width { result.width ≡ (field_at f).width }
    {
        let bytes = self.bytes;
        Prefix {
            value: value_of(bytes, f),
            len: length_of(bytes, f),
            width: width_of(f),
        }
    }

    // 4: some field has a bit set after its prefix.
    pub fn has_stray_bit(self) -> bool
        ensures { result ≡ stray_bit self.entry.bytes.now }
    {
        (0..FIELDS).any(|f| self.get(f).is_stray())
    }

    // Some port is asked for: its prefix is not empty.
    fn asks_port(self) -> bool
        ensures { result ≡ asks_port (rule_of self.entry.bytes.now) }
    {
        self.get(SOURCE_PORT).len != 0 || self.get(DESTINATION_PORT).len != 0
    }

    // The protocol is exactly one that has ports.
    fn has_ports(self) -> bool
        ensures { result ≡ has_ports (rule_of self.entry.bytes.now) }
    {
        let protocol = self.get(PROTOCOL);
        let exact = protocol.len == 8;
        exact && (protocol.value == 6 || protocol.value == 17)
    }

    // 14: a port is asked for, and the protocol is none that has ports (02, Q-1).
    pub fn has_stray_port(self) -> bool
        ensures { result ≡ stray_port self.entry.bytes.now }
    {
        self.asks_port() && !self.has_ports()
    }
}
