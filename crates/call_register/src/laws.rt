//! What holds of every register's text. The function here does nothing: its contract is the laws.
ghost use Rattle.std.specs.Prelude.{◌≡◌, ℕ, List, Some, None};
ghost use Rattle.hex.specs.Hex.{encode_lower};
ghost use Rattle.json.specs.Print.{quoted};
ghost use Rattle.msd_codec.specs.Sets.{Shows, StopsAt};
ghost use Rattle.msd_values.specs.declared.msd.Msd.{Msd};
ghost use Rattle.msd_values.specs.Vin.{IsVin};
ghost use Rattle.per_bits.specs.Parts.{AreOctets};
ghost use Rattle.per_bits.specs.declared.refusals.Refusal.{Refusal};
ghost use Rattle.call_register.specs.Text.{in_quotes};
ghost use Rattle.call_register.specs.Vins.{vin_of};

/// The laws of what a register tells of a set: whose it is, and that its texts need no escapes.
pub fn register_laws()
    // Where octets show a set of data, it is that of the set, and where they stop being one, there is none.
    ensures shown { (octets : List ℕ) (msd : Msd) → Shows octets msd → vin_of octets ≡ Some msd.vin }
    ensures stopped { (octets : List ℕ) (refusal : Refusal) → StopsAt octets refusal → vin_of octets ≡ None }
    // Neither hexadecimal digits nor an identification number need an escape: they stand between quotes as they are.
    ensures digits { (octets : List ℕ) → AreOctets octets →
        quoted (encode_lower octets) ≡ in_quotes (encode_lower octets) }
    ensures number { (text : List ℕ) → IsVin text → quoted text ≡ in_quotes text }
{}
