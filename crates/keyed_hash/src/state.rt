use std::hash::{BuildHasher, DefaultHasher, Hasher};

/// The words under which the two words of a text's key are made: the first bits behind the point of the
/// square roots of 2 and of 3.
const FIRST: u64 = 0x6a09_e667_f3bc_c908;

const SECOND: u64 = 0xbb67_ae85_84ca_a73b;

/// Makes hashers under a key of two words: SipHash-1-3 of the key and then of what is hashed. It keeps
/// the hasher that has taken in the key, and copies it.
#[derive(Clone, Copy)]
pub struct KeyedState {
    keyed: DefaultHasher,
}

impl KeyedState {
    /// With these two words as the key.
    pub fn new(first: u64, second: u64) -> KeyedState {
        let mut keyed = DefaultHasher::new();
        keyed.write_u64(first);
        keyed.write_u64(second);
        KeyedState { keyed }
    }

    /// With the key of a text, each of whose words depends on every byte of the text.
    pub fn of_text(text: &[u8]) -> KeyedState {
        KeyedState::new(hash_under(FIRST, text), hash_under(SECOND, text))
    }
}

/// The hash of a text under a fixed word.
fn hash_under(word: u64, text: &[u8]) -> u64 {
    let mut hasher = KeyedState::new(word, word).build_hasher();
    hasher.write(text);
    hasher.finish()
}

impl BuildHasher for KeyedState {
    type Hasher = DefaultHasher;

    ghost build_hasher = { λ state. state.keyed };

    fn build_hasher(&self) -> DefaultHasher {
        self.keyed
    }
}
