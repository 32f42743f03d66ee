//! The limits of what the two ends say and do.

ghost use Rattle.std.specs.Prelude.{◌≡◌, ℕ, List, [], ◌++◌, ◌⊎◌, take, None, Ok, Err};
ghost use Rattle.link_frames.specs.declared.fault.FrameFault.{FrameFault};
ghost use Rattle.link_frames.specs.declared.frame.Frame.{Frame};
ghost use Rattle.link_frames.specs.FrameOctets.{frame_octets, IsFrame};
ghost use Rattle.link_frames.specs.Reading.{Reading, Feeds, HasRead, and_frame};
ghost use Rattle.link_frames.specs.Streams.{Holds, FrameStops};

use crate::frame::OCTETS;
use crate::note::MOST_ITEMS;

/// A set of data has 140 octets, in each frame and item that has one, and one step of an end gives at most 8 items.
/// This project's profile.
pub fn limits()
    ensures octets { OCTETS ≡ 140 }
    ensures items { MOST_ITEMS ≡ 8 }
{}

/// No frame's octets are a proper prefix of another's. So a stream has one reading, and pieces of it are read as the
/// whole is, however it is cut.
pub fn frame_laws()
    ensures apart { (f g : Frame) (more : List ℕ) → IsFrame f → IsFrame g
        → frame_octets g ≡ frame_octets f ++ more → (f ≡ g) × (more ≡ []) }
    ensures some_reading { (stream : List ℕ)
        → ((frames : List Frame) × (rest : List ℕ) × Holds stream frames rest)
        ⊎ ((frames : List Frame) × (fault : FrameFault) × FrameStops stream frames fault) }
    ensures one_reading { (stream : List ℕ) (frames others : List Frame) (rest other : List ℕ)
        → Holds stream frames rest → Holds stream others other → (frames ≡ others) × (rest ≡ other) }
    ensures one_stop { (stream : List ℕ) (frames others : List Frame) (fault other : FrameFault)
        → FrameStops stream frames fault → FrameStops stream others other → (frames ≡ others) × (fault ≡ other) }
    ensures not_both { (stream : List ℕ) (frames others : List Frame) (rest : List ℕ) (fault : FrameFault)
        → Holds stream frames rest → FrameStops stream others fault → ⊥ }
    ensures begins { HasRead [] [] (record { kept = []; frame = None; fault = None; taken = 0 }) }
    ensures goes_on { (stream piece : List ℕ) (frames : List Frame) (n : ℕ) (old new : Reading)
        → HasRead stream frames old → Feeds old piece (Ok n) new
        → HasRead (stream ++ take n piece) (and_frame frames new.frame) new }
    ensures stops { (stream piece : List ℕ) (frames : List Frame) (fault : FrameFault) (old new : Reading)
        → HasRead stream frames old → Feeds old piece (Err fault) new → FrameStops (stream ++ piece) frames fault }
{}
