//! The texts of the project: lines of a script, and the lines of a trace.
#![tactic(auto)]

mod choices;
mod draft;
mod encode;
mod entries;
mod events;
mod fact_line;
mod facts;
mod frame_text;
mod hexadecimal;
mod laws;
mod note_text;
mod numbers;
mod script;
mod summary;
mod text_out;
mod write;

pub use draft::Draft;
pub use encode::{EncodeLine, read_encode};
pub use entries::read_entry;
pub use fact_line::FactLine;
pub use frame_text::push_frame_words;
pub use hexadecimal::push_octets;
pub use laws::{entry_laws, summary_laws};
pub use line_input::{
    BadLine, Line, LineFault, Lines, Reason, only_word, push_number, push_word, read_u32,
};
pub use note_text::push_note_words;
pub use script::{ScriptLine, read_event_line, read_script, read_text};
pub use text_out::TextOut;
pub use trace_model::{
    Deaf, Delay, Entry, Event, Kept, LONGEST_DELAY, Listener, Positive, Tally, safe_traces,
};
pub use write::write_entry;
