//! What holds of all summaries, and of the lines of all entries. The functions here do nothing: their contracts are the
//! laws.
ghost use Rattle.std.specs.Prelude.{◌≡◌, ◌↔◌, List, ℕ, [], ◌∷◌, ◌++◌, Ok};
ghost use Rattle.line_input.specs.Characters.{newline};
ghost use Rattle.msd_codec.specs.Sets.{Shows, StopsAt};
ghost use Rattle.msd_values.specs.declared.msd.Msd.{Msd};
ghost use Rattle.per_bits.specs.declared.refusals.Refusal.{Refusal};
ghost use Rattle.trace_model.specs.declared.entry.Entry.{Entry};
ghost use Rattle.trace_text.specs.EntryLine.{line_of};
ghost use Rattle.trace_text.specs.EntryLines.{IsEntry, entry_of};
ghost use Rattle.trace_text.specs.Summary.{ok_words, refused_words, summary_words};

/// The laws of the summary with which the line of a shown set ends.
pub fn summary_laws()
    // Where octets show a set of data, the summary is that of the set, and where they stop, that of the refusal.
    ensures shown { (octets : List ℕ) (msd : Msd) → Shows octets msd → summary_words octets ≡ ok_words msd }
    ensures stopped { (octets : List ℕ) (refusal : Refusal) → StopsAt octets refusal →
        summary_words octets ≡ refused_words refusal }
{}

/// The law of the lines of a trace: a line is read as an entry exactly where it is the line of that entry. So each line
/// that is written for an entry is read as the entry, and no other line is.
pub fn entry_laws()
    ensures { (text : List ℕ) (entry : Entry) →
        entry_of text ≡ Ok entry ↔ IsEntry entry × (line_of entry ≡ text ++ newline ∷ []) }
{}
