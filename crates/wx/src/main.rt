//! The program: the top call over the file system and the standard streams; or the echo over standard input and output,
//! where a browser starts it as a native host.
#![tactic(auto)]

use std::alloc::AllocError;
use std::env;
use std::io::ErrorKind;
use std::process::ExitCode;
use wx_children::{ChildStarter, host_seconds};
use wx_cmd::wx;
use wx_host_kit::{Echo, Handler, KitEnd, StreamInput, StreamOutput, is_host_call, wx_as_host};
use wx_outside::{FileShelf, Sink, StreamSink};
use wx_status::Status;

/// The words behind the program's name. Words that are not all UTF-8 have none of the forms, as no words have.
fn words(rt: &HostRuntime) -> Result<Vec<String>, AllocError> {
    let mut words = Vec::new(rt.alloc());
    match env::args(rt) {
        Ok(args) => {
            for word in args.skip(1) {
                words.push(word)?;
            }
            Ok(words)
        }
        Err(e) if e.kind() == ErrorKind::OutOfMemory => Err(AllocError),
        Err(_) => Ok(words),
    }
}

fn main(rt: HostRuntime) -> ExitCode {
    let words = words(&rt);
    if words.as_ref().is_ok_and(|words| is_host_call(words)) {
        let end = match Box::new(rt.alloc(), Echo) {
            Ok(echo) => {
                let mut handler: Box<dyn Handler> = echo;
                let mut input = StreamInput::new(rt.reader());
                let mut output = StreamOutput::new(rt.stdout());
                wx_as_host(&rt, rt.alloc(), &mut handler, &mut input, &mut output)
            }
            Err(_) => KitEnd::NoMemory,
        };
        return ExitCode::from(end.status());
    }
    let mut shelf = FileShelf::new(&rt);
    let mut out = StreamSink::new(rt.stdout());
    let mut err = StreamSink::new(rt.stderr());
    let mut starter = ChildStarter::new(rt, rt.alloc(), host_seconds(&rt));
    let status = match words {
        Ok(words) => wx(
            rt.alloc(),
            &words,
            &mut shelf,
            &mut starter,
            &mut out,
            &mut err,
        ),
        Err(AllocError) => {
            let _ = err.write(b"wx: no memory\n");
            Status::NoMemory
        }
    };
    ExitCode::from(status.number())
}
