//! Messages as five words, and words that are no message.
use messages::answer::Answer;
use messages::form::FiveWords;
use messages::request::Request;
use std::fmt::Debug;
use std::process::Abort;

// The message has these words, and they read back as it.
fn is_words<T: FiveWords + PartialEq + Debug + Copy>(rt: &impl Abort, message: T, words: [u32; 5]) {
    assert_eq!(rt; message.to_words(), words);
    assert_eq!(rt; T::from_words(words), Some(message));
}

#[test]
fn requests_are_words(rt: HostRuntime) {
    let (wave, address, operand) = (3, 40, 9);
    is_words(&rt, Request::Load { wave, address }, [1, 3, 40, 0, 0]);
    let exchange = Request::Exchange {
        wave,
        address,
        operand,
    };
    is_words(&rt, exchange, [4, 3, 40, 9, 0]);
}

#[test]
fn answers_are_words(rt: HostRuntime) {
    let (wave, address, stamp, block) = (3, 40, 12, 6);
    let store = Answer::Store {
        wave,
        address,
        stamp,
    };
    is_words(&rt, store, [2, 3, 40, 0, 12]);
    let fault = Answer::Fault {
        wave,
        address,
        block,
    };
    is_words(&rt, fault, [4, 3, 40, 6, 0]);
}

#[test]
fn some_words_are_no_message(rt: HostRuntime) {
    for words in [
        [0, 3, 40, 0, 0],
        [5, 3, 40, 9, 0],
        [1, 3, 40, 9, 0],
        [2, 3, 40, 9, 1],
    ] {
        assert_eq!(rt; <Request as FiveWords>::from_words(words), None);
    }
    for words in [[5, 3, 40, 0, 0], [2, 3, 40, 9, 12], [4, 3, 40, 6, 1]] {
        assert_eq!(rt; <Answer as FiveWords>::from_words(words), None);
    }
}
