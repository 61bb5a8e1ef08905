// The calls that a request can ask for.
use crate::stop::Stop;

#[derive(Clone, Copy)]
pub enum Op {
    Build,
    Lookup,
    Pairs,
    Judge,
    Show,
    Many,
}

impl TryFrom<u8> for Op {
    type Error = Stop;

    fn try_from(byte: u8) -> Result<Op, Stop> {
        match byte {
            1 => Ok(Op::Build),
            2 => Ok(Op::Lookup),
            3 => Ok(Op::Pairs),
            4 => Ok(Op::Judge),
            5 => Ok(Op::Show),
            6 => Ok(Op::Many),
            _ => Err(Stop::End),
        }
    }
}
