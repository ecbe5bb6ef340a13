//! Hashes under a key. The values are those that Python's `hash` gives to bytes with `PYTHONHASHSEED=0`,
//! which is SipHash-1-3 under zeros, for the key's sixteen bytes with the text behind them.

use keyed_hash::{KeyedState, NameKey};
use std::hash::{BuildHasher, Hasher};

const FIRST: u64 = 0x0706_0504_0302_0100;

const SECOND: u64 = 0x0f0e_0d0c_0b0a_0908;

#[test]
fn a_name_is_hashed_behind_the_key(rt: HostRuntime) {
    let state = KeyedState::new(FIRST, SECOND);
    assert!(rt; state.build_hasher().finish() == 0x8972_1884_33a5_c5b7);
    assert!(rt; state.hash_one(NameKey { bytes: b"p" }) == 0xfaba_0f7f_fcc2_a7ea);
    let long = NameKey {
        bytes: b"a name of more than eight bytes",
    };
    assert!(rt; state.hash_one(long) == 0x29e6_8207_0ab4_c738);
}

/// The key of the text is 0xa108ab6a2911beb9 and 0x77d269ae8590c5ca.
#[test]
fn the_key_of_a_text(rt: HostRuntime) {
    let state = KeyedState::of_text(b"(check-sat)");
    assert!(rt; state.hash_one(NameKey { bytes: b"p" }) == 0x9171_633b_49d8_963d);
}
