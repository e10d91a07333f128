ghost use Rattle.std.specs.Prelude.{◌≡◌, None, IfOk, OnOk, option_map};
ghost use Rattle.serving.specs.Conversations.{Exchanges, Replies, ServesAll};

use crate::session::Session;
use requests::{Answer, Received, receive, send};
use std::alloc::Global;
use std::io;
use std::io::{ErrorKind, Read, Write};
use std::sync::Wait;
use store::Store;

/// Whether a channel goes on.
#[derive(Clone, Copy)]
enum Progress {
    Answered,
    Ended,
}

/// Replies to each request of the input, one after the other, up to its end. A frame that isn't a request is misuse, and one that can't
/// be read to its end is the error `InvalidData`. A transaction that is open at the end is rolled back.
pub fn serve<R: Wait + Drop, I: Read, O: Write>(
    alloc: Global,
    store: &Store<R>,
    input: &mut I,
    output: &mut O,
) -> io::Result<()>
    // At Ok the input has ended, and except for less than a frame at its end each frame has exactly one reply, in their order. It
    // is what `Session::answer` says about its request, or misuse if it isn't one.
    ensures { OnOk result (ServesAll (I.remaining input.old) (I.remaining input.new) (O.contents output.old) (O.contents output.new)) }
{
    let mut session = Session::new(alloc, store);
    for _ in 0..u64::MAX {
        match exchange(alloc, &mut session, input, output)? {
            Progress::Answered => {}
            Progress::Ended => return Ok(()),
        }
    }
    Err(io::Error::from(ErrorKind::Other))
}

// Replies to the next request.
fn exchange<R: Wait + Drop, I: Read, O: Write>(
    alloc: Global,
    session: &mut Session<'_, R>,
    input: &mut I,
    output: &mut O,
) -> io::Result<Progress>
    ensures { IfOk result (Exchanges (I.remaining input.old) (I.remaining input.new) (O.contents output.old) (O.contents output.new) (option_map (λ t. t.snapshot.reads.session) session.old.current) (option_map (λ t. t.snapshot.reads.session) session.new.current)) }
{
    let received = receive(input)?;
    match received {
        Received::Request(request) => {
            let answer = session.answer(&request);
            reply(alloc, output, &answer)
        }
        Received::Other => reply(alloc, output, &Answer::Misuse),
        Received::End => Ok(Progress::Ended),
    }
}

fn reply<O: Write>(alloc: Global, output: &mut O, answer: &Answer) -> io::Result<Progress>
    ensures { IfOk result (Replies (O.contents output.old) (O.contents output.new) answer.now) }
{
    send(alloc, output, answer)?;
    Ok(Progress::Answered)
}
