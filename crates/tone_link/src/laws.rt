//! What the type of a frame keeps.

ghost use Rattle.std.specs.Prelude.{◌≡◌, ◌<◌, length};
ghost use Rattle.link_frames.specs.FrameOctets.{frame_octets, IsFrame};
ghost use Rattle.per_bits.specs.Parts.{AreOctets};

use link_frames::{Frame, OCTETS, Request};

/// A frame is one by its definition, and each of its octets is below 256. This does nothing: its contract is that law.
pub fn frame_laws(frame: &Frame)
    ensures is_frame { IsFrame frame.now }
    ensures octets { AreOctets (frame_octets frame.now) }
{
    match frame {
        Frame::Init => {}
        Frame::Start(request) => request_laws(*request),
        Frame::Content {
            request,
            attempt,
            octets,
        } => {
            let _attempt = *attempt;
            request_laws(*request);
            set_laws(octets);
        }
        Frame::Nack(request) => request_laws(*request),
        Frame::Ack(request) => request_laws(*request),
        Frame::App { request, .. } => request_laws(*request),
    }
}

/// A request is 1 to 255.
fn request_laws(request: Request)
    ensures low { 0 < request }
    ensures high { request < 256 }
{
    request.number();
}

/// A set has 140 octets, each below 256.
fn set_laws(octets: &[u8; OCTETS])
    ensures count { length octets.now ≡ 140 }
    ensures octets { AreOctets octets.now }
{
    octet_laws(octets);
}

/// Octets are below 256.
fn octet_laws(octets: &[u8])
    ensures { AreOctets octets.now }
{}
