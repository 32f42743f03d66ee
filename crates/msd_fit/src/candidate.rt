//! Additional data that may be put into a set of data.
ghost use Rattle.std.specs.Prelude.{◌≡◌, ◌+◌, ◌≤◌, ◌↔◌, IsTrue, IsSome, IfSome, length};
ghost use Rattle.per_bits.specs.Parts.{AreOctets, IsOid};
ghost use Rattle.msd_fit.specs.Candidates.{most_together, is_oid, is_candidate, candidate_of};

use crate::octets::{octs_of, put};
use per_bits::Oid;
use std::marker::Model;

/// How many octets the identifier and the content of a candidate have together, at most.
pub const MOST_TOGETHER: usize = 110;

/// Additional data that the vehicle offers for its set of data: what it is, as the octets of a relative object
/// identifier, and its content. Together they have at most 110 octets, which is this project's profile.
#[derive(Clone, Copy, Debug, PartialEq, Eq)]
pub struct Candidate {
    // the identifier, the content, and zeros
    octets: [u8; MOST_TOGETHER],
    oid_len: u8,
    content_len: u8,
}

impl Model for Candidate {
    ghost use Rattle.std.specs.Prelude.{◌+◌, length, take, drop};
    ghost use Rattle.msd_fit.specs.Candidates.{AdditionalData};
    ghost use Rattle.msd_fit.specs.Stored.{StoresData, stored, given_back};

    ghost Value = { AdditionalData };

    ghost view = { λ c. record { oid = take c.oid_len c.octets; content = take c.content_len (drop c.oid_len c.octets) } };

    ghost invariant = { λ c. StoresData c.octets c.oid_len c.content_len };

    ghost inverse = { λ d. record {
      octets = stored d.oid d.content (length d.oid + length d.content);
      oid_len = length d.oid;
      content_len = length d.content;
    } };

    ghost inverse_ok = { λ c h i. record {
      octets = given_back c.octets c.oid_len c.content_len h i;
      oid_len = h.oid_len i;
      content_len = h.content_len i;
    } };
}

impl Candidate {
    /// The additional data of these octets. `None` is for an identifier that is none, and for more octets than a
    /// candidate may have.
    pub fn of(oid: &[u8], content: &[u8]) -> Option<Candidate>
        ensures some { IsSome result ↔ (IsOid oid.now × (length oid.now + length content.now ≤ most_together)) }
        ensures value { IfSome result (λ candidate. candidate ≡ record { oid = oid.now; content = content.now }) }
        // Which candidate, as a function of the octets.
        ensures exact { result ≡ candidate_of oid.now content.now }
    {
        if !is_candidate(oid, content) {
            return None;
        }
        let mut octets = [0; MOST_TOGETHER];
        put(&mut octets, 0, oid);
        put(&mut octets, oid.len(), content);
        Some(Candidate {
            octets,
            oid_len: oid.len() as u8,
            content_len: content.len() as u8,
        })
    }

    /// What the data are: the octets of the identifier.
    pub fn oid(&self) -> &[u8]
        ensures value { result.now ≡ self.now.oid }
        ensures oid { IsOid result.now }
        ensures octets { AreOctets result.now }
        ensures few { length self.now.oid + length self.now.content ≤ most_together }
    {
        let octets: &[u8] = &self.octets;
        &octets[..usize::from(self.oid_len)]
    }

    /// The octets of the content, which may be none.
    pub fn content(&self) -> &[u8]
        ensures value { result.now ≡ self.now.content }
        ensures octets { AreOctets result.now }
        ensures few { length self.now.oid + length self.now.content ≤ most_together }
    {
        let octets: &[u8] = &self.octets;
        let start = usize::from(self.oid_len);
        &octets[start..start + usize::from(self.content_len)]
    }
}

impl Default for Candidate {
    ghost use Rattle.std.specs.Prelude.{◌≡◌, [], ◌∷◌};

    ghost is_default = { λ c. c ≡ record { oid = 0 ∷ []; content = [] } };

    /// The identifier of one octet 0, without content.
    fn default() -> Candidate {
        Candidate {
            octets: [0; MOST_TOGETHER],
            oid_len: 1,
            content_len: 0,
        }
    }
}

// Whether the octets are those of a candidate.
fn is_candidate(oid: &[u8], content: &[u8]) -> bool
    ensures test { result ≡ is_candidate oid.now content.now }
    ensures exact { IsTrue result ↔ (IsOid oid.now × (length oid.now + length content.now ≤ most_together)) }
{
    if oid.len() > MOST_TOGETHER || content.len() > MOST_TOGETHER - oid.len() {
        return false;
    }
    is_oid(oid)
}

// Whether the octets are those of a relative object identifier.
fn is_oid(octets: &[u8]) -> bool
    requires { length octets.now ≤ most_together }
    ensures test { result ≡ is_oid octets.now }
    ensures exact { IsTrue result ↔ IsOid octets.now }
{
    Oid::of(octs_of(octets)).is_some()
}
