// Serves the calls of `face` over standard input and output, so that another program can be compared
// with what `face_c` exports to C and Rust. The protocol stands at the top of reference/main.rs. A request
// that the buffers do not hold, or that the input's end cuts off, ends the program, as op 0 does.
#![tactic(auto)]

mod big_endian;
mod op;
mod replies;
mod requests;
mod session;
mod sizes;
mod stop;

use session::Session;
use std::io;
use stop::Stop;

fn main(rt: HostRuntime) -> io::Result<()> {
    let mut session = Session::new(rt.stdin(), rt.stdout());
    match session.serve() {
        Ok(()) | Err(Stop::End) => Ok(()),
        Err(Stop::Failure(error)) => Err(error),
    }
}
