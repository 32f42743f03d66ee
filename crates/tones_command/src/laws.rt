//! What holds of all replies of `tones`, and of the frames that are lost.

ghost use Rattle.std.specs.Prelude.{◌≡◌, ◌≤◌, ℕ, List, Result, Ok, is_err};
ghost use Rattle.link_frames.specs.FrameOctets.{frame_octets, IsFrame};
ghost use Rattle.link_frames.specs.declared.frame.Frame.{Frame};
ghost use Rattle.per_bits.specs.Parts.{AreOctets};
ghost use Rattle.tone_link.specs.ToneReading.{ReadsAs};
ghost use Rattle.tone_link.specs.Tones.{frame_samples};
ghost use Rattle.tone_link.specs.declared.fault.ToneFault.{ToneFault};
ghost use Rattle.trace_model.specs.Safety.{Finished, Safe};
ghost use Rattle.trace_text.specs.EntryLine.{text_of};
ghost use Rattle.trace_text.specs.Script.{script_of};
ghost use Rattle.script_stage.specs.ScriptTrace.{ended, script_tick, script_trace};
ghost use Rattle.tones_command.specs.Modem.{NoiseFrom, is_lost, most_noise, received};
ghost use Rattle.tones_command.specs.Tones.{toned_script, tones_reply};

/// The laws of the replies of `tones`. This does nothing: its contract is the laws.
pub fn tones_laws()
    // Every trace that it writes is that of a script, and so is safe up to the tick at which that ends, and finished.
    ensures safe { (noise : NoiseFrom) (input : List ℕ) →
        Safe (script_trace (toned_script noise input)) (script_tick (toned_script noise input)) }
    ensures finished { (noise : NoiseFrom) (input : List ℕ) → Finished (script_trace (toned_script noise input)) }
    // With noise of at most 500 in each sample no line is lost, and the reply is that of `run`.
    ensures whole { (noise : NoiseFrom) (input : List ℕ) → noise.most ≤ 500 →
        toned_script noise input ≡ script_of input }
    ensures as_run { (noise : NoiseFrom) (input : List ℕ) → noise.most ≤ 500 →
        tones_reply noise input ≡ ended (text_of (script_trace (script_of input))) (script_of input).refused }
{}

/// What comes of a frame's samples. This does nothing: its contract is the laws.
pub fn loss_laws()
    // A frame is lost exactly where the modem at the other end refuses its samples.
    ensures refused { (most x : ℕ) (frame : Frame) (answer : Result Frame ToneFault) → most ≤ most_noise →
        IsFrame frame → AreOctets (frame_octets frame) → ReadsAs (received most x (frame_samples frame)) answer →
        is_lost most x frame ≡ is_err answer }
    // Else it is read as itself, and as no other frame.
    ensures heard { (most x : ℕ) (frame heard : Frame) → most ≤ most_noise → IsFrame frame →
        AreOctets (frame_octets frame) → ReadsAs (received most x (frame_samples frame)) (Ok heard) → heard ≡ frame }
{}
