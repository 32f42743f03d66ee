//! The live ends: the link that they are run over, and how it is left.

ghost use Rattle.std.specs.Prelude.{◌≡◌, ◌<◌};

use call_io::{RealSink, RealSource, Sink, Source};
use link_frames::Steps;
use live_link::{Link, Live, LiveStatus, live};
use std::alloc::Global;
use std::io::{self, Read};
use std::marker::Brand;
use std::net::{Ipv4Addr, Net, Shutdown, TcpListener, TcpStream};
use std::sync::ledger::{Blank, Ledger};

/// The most octets that are read of the other end once this one is done.
const MOST_LEFT: u32 = 16_777_216;

/// Connects to the local host, or listens there and takes one connection.
fn open<R: Net<Listener = TcpListener, Stream = TcpStream>>(
    rt: &R,
    end: Live,
) -> io::Result<TcpStream> {
    let stream = match end {
        Live::Vehicle(port) => TcpStream::connect(rt, (Ipv4Addr::LOCALHOST, port))?,
        Live::Point(port) => {
            let (stream, _) = TcpListener::bind(rt, (Ipv4Addr::LOCALHOST, port))?.accept()?;
            stream
        }
    };
    stream.set_nodelay(true)?;
    Ok(stream)
}

/// Ends this end's writing, and reads on to the other's end without hearing anything: else the system may take back
/// what was written last.
fn leave(stream: &TcpStream) {
    if stream.shutdown(Shutdown::Write).is_err() {
        return;
    }
    let mut reader = stream;
    let mut block = [0; 4096];
    let mut left = MOST_LEFT;
    while left > 0 {
        match reader.read(&mut block) {
            Ok(0) | Err(_) => return,
            Ok(count) => left = left.saturating_sub(count as u32),
        }
    }
}

/// Runs an end over a link. Nobody reads how often the ends of calls were passed, so that count is begun here.
fn run<S: Source, O: Sink, I: Source, P: Sink, L: Ledger>(
    alloc: Global,
    end: Live,
    script: &mut S,
    trace: &mut O,
    link: &mut Option<Link<I, P>>,
    blank: Blank,
) -> LiveStatus
    requires name { blank.name ≡ L.name }
    requires parts { blank.parts ≡ L.parts }
    requires some { 0 < blank.parts }
{
    let mut moments = Steps::<L>::start(blank);
    live(alloc, end, script, trace, link, &mut moments)
}

/// Runs an end of a live link: the script is standard input, the trace standard output.
pub fn run_live<R: Net<Listener = TcpListener, Stream = TcpStream>, S: Source, O: Sink>(
    alloc: Global,
    rt: &R,
    end: Live,
    script: &mut S,
    trace: &mut O,
) -> LiveStatus {
    let stream = open(rt, end).ok();
    let mut link = match &stream {
        Some(stream) => Some(Link {
            from: RealSource::new(stream),
            to: RealSink::new(stream),
        }),
        None => None,
    };
    let status = run::<_, _, _, _, Brand>(alloc, end, script, trace, &mut link, Blank::new(1));
    if let Some(stream) = &stream {
        leave(stream);
    }
    status
}
