//! Some of the requests of a call.
ghost use Rattle.std.specs.Prelude.{◌≡◌, List, [], ◌∷◌, ℕ};
ghost use Rattle.link_frames.specs.Requests.{RequestsStandFor, is_among};

use crate::number::Request;

/// How many words have a bit for each number up to that of the greatest request.
const WORDS: usize = 4;

/// How many bits a word has.
const BITS: u8 = 64;

/// Some of the requests of a call, kept so that one is found without a search and without memory.
#[derive(Clone, Copy, Debug, PartialEq, Eq)]
pub struct Requests {
    /// For each number, in the bit of its own, whether its request is among them.
    words: [u64; WORDS],
}

impl Requests {
    /// No request.
    #[tactic(auto, unfolding(crate::specs::Requests::RequestsStandFor))]
    pub fn none() -> Requests
        ensures { RequestsStandFor result [] }
    {
        Requests { words: [0; WORDS] }
    }

    /// Adds a request; one that is among them already changes nothing.
    pub fn add(&mut self, request: Request)
        ensures { (rs : List ℕ) → RequestsStandFor self.old rs → RequestsStandFor self.new (request ∷ rs) }
    {
        let number = request.number();
        self.words[usize::from(number / BITS)] |= 1 << (number % BITS);
    }

    /// Whether this request is among them.
    #[tactic(auto, unfolding(crate::specs::Requests::RequestsStandFor))]
    pub fn has(&self, request: Request) -> bool
        ensures { (rs : List ℕ) → RequestsStandFor self.now rs → result ≡ is_among request rs }
    {
        let number = request.number();
        (self.words[usize::from(number / BITS)] >> (number % BITS)) & 1 == 1
    }
}
